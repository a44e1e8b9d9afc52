//! Trailer lines, byte by byte.
ghost use Rattle.std.specs.Prelude.{◌≡◌, ◌<◌, true, false};
ghost use Rattle.dep_body.specs.Lines.{is_trailer_octet};
ghost use Rattle.dep_body.specs.Reading.{trailer_after, next_trailer};

use dep_octets::is_token_octet;

/// How many bytes the trailers have at most, with the last CR LF.
pub(crate) const SECTION_LIMIT: usize = 16_384;

/// What the bytes of a trailer line are so far.
#[derive(Clone, Copy)]
pub(crate) enum TrailerReading {
    Empty,
    Name,
    Value,
    Broken,
}

/// Trailers whose end has not come. The reading is of the last line, and leaves out a CR at its end.
#[derive(Clone, Copy)]
pub(crate) struct Trailers {
    pub length: usize,
    pub good: bool,
    pub after_cr: bool,
    pub reading: TrailerReading,
    ghost short: { length < 16384 },
}

impl Trailers {
    /// Trailers of which nothing has come.
    pub fn new() -> Trailers
        ensures length { result.length ≡ 0 }
        ensures good { result.good ≡ true }
        ensures after_cr { result.after_cr ≡ false }
        ensures reading { result.reading ≡ TrailerReading.Empty }
    {
        Trailers {
            length: 0,
            good: true,
            after_cr: false,
            reading: TrailerReading::Empty,
        }
    }

    /// The reading of the last line with this byte, which does not end it.
    pub fn reading_with(self, byte: u8) -> TrailerReading
        ensures { result ≡ next_trailer self.reading self.after_cr byte }
    {
        let reading = if self.after_cr {
            self.reading.with(b'\r')
        } else {
            self.reading
        };
        if byte == b'\r' {
            reading
        } else {
            reading.with(byte)
        }
    }
}

impl TrailerReading {
    /// The reading with one byte more. A line is a token, a colon, and bytes other than NUL, CR and LF (RFC 9110,
    /// section 5.1; RFC 9112, section 7.1.2).
    pub fn with(self, byte: u8) -> TrailerReading
        ensures { result ≡ trailer_after self byte }
    {
        match self {
            TrailerReading::Empty | TrailerReading::Name if is_token_octet(byte) => {
                TrailerReading::Name
            }
            TrailerReading::Name if byte == b':' => TrailerReading::Value,
            TrailerReading::Value if is_trailer_octet(byte) => TrailerReading::Value,
            _ => TrailerReading::Broken,
        }
    }
}

fn is_trailer_octet(byte: u8) -> bool
    ensures { result ≡ is_trailer_octet byte }
{
    !(byte == 0 || (byte == b'\r' || byte == b'\n'))
}
