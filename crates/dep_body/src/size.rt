//! Chunk lines, byte by byte.
ghost use Rattle.std.specs.Prelude.{◌≡◌, ◌<◌, false, Some, None, if◌then◌else◌};
ghost use Rattle.std.specs.Char.{digit_value};
ghost use Rattle.dep_body.specs.Lines.{is_hex_octet, begins_extension, is_extension_octet};
ghost use Rattle.dep_body.specs.Reading.{with_digit, size_after, next_size};

/// How many bytes a chunk line has at most, with its CR LF.
pub(crate) const LINE_LIMIT: usize = 1024;

/// What the bytes of a chunk line say so far. A number above the limit is `None`.
#[derive(Clone, Copy)]
pub(crate) enum SizeReading {
    Start,
    Digits(Option<u64>),
    Extension(Option<u64>),
    Malformed,
}

/// A chunk line whose end has not come. The reading leaves out a CR at its end.
#[derive(Clone, Copy)]
pub(crate) struct SizeLine {
    pub length: usize,
    pub after_cr: bool,
    pub reading: SizeReading,
    ghost short: { length < 1024 },
}

impl SizeLine {
    /// A line of which nothing has come.
    pub fn new() -> SizeLine
        ensures length { result.length ≡ 0 }
        ensures after_cr { result.after_cr ≡ false }
        ensures reading { result.reading ≡ SizeReading.Start }
    {
        SizeLine {
            length: 0,
            after_cr: false,
            reading: SizeReading::Start,
        }
    }

    /// The reading of the line with this byte, which does not end it.
    pub fn reading_with(self, byte: u8, limit: u64) -> SizeReading
        ensures { result ≡ next_size limit self.reading self.after_cr byte }
    {
        let reading = if self.after_cr {
            self.reading.with(b'\r', limit)
        } else {
            self.reading
        };
        if byte == b'\r' {
            reading
        } else {
            reading.with(byte, limit)
        }
    }
}

impl SizeReading {
    /// The reading with one byte more. The size is in hexadecimal digits of either case, and counted up to `limit`,
    /// however many digits follow (RFC 9112, section 7.1).
    pub fn with(self, byte: u8, limit: u64) -> SizeReading
        ensures { result ≡ size_after limit self byte }
    {
        match self {
            SizeReading::Start => match hex_digit(byte) {
                Some(digit) => SizeReading::Digits(with_digit(Some(0), digit, limit)),
                None => SizeReading::Malformed,
            },
            SizeReading::Digits(value) => match hex_digit(byte) {
                Some(digit) => SizeReading::Digits(with_digit(value, digit, limit)),
                None if begins_extension(byte) => SizeReading::Extension(value),
                None => SizeReading::Malformed,
            },
            SizeReading::Extension(value) if is_extension_octet(byte) => {
                SizeReading::Extension(value)
            }
            _ => SizeReading::Malformed,
        }
    }
}

fn hex_digit(byte: u8) -> Option<u64>
    ensures { result ≡ (if is_hex_octet byte then Some (digit_value byte) else None) }
{
    match char::from(byte).to_digit(16) {
        Some(digit) => Some(u64::from(digit)),
        None => None,
    }
}

// One digit more, where the number stays within the limit.
fn with_digit(value: Option<u64>, digit: u64, limit: u64) -> Option<u64>
    requires { digit < 16 }
    ensures { result ≡ with_digit limit value digit }
{
    let number = u128::from(value?) * 16 + u128::from(digit);
    if number <= u128::from(limit) {
        Some(number as u64)
    } else {
        None
    }
}

fn begins_extension(byte: u8) -> bool
    ensures { result ≡ begins_extension byte }
{
    byte == b';' || (byte == b' ' || byte == b'\t')
}

fn is_extension_octet(byte: u8) -> bool
    ensures { result ≡ is_extension_octet byte }
{
    byte == b'\t' || (byte >= 32 && !(byte == 127))
}
