//! The bytes of a connection that no item has used, and what is known of them.
ghost use Rattle.std.specs.Prelude.{◌≡◌, [], ◌++◌, false, OnOk, OnErr, MatchResult};
ghost use Rattle.dep_message.specs.Giving.{BeginsWithHead};
ghost use Rattle.dep_message.specs.Places.{Open};
ghost use Rattle.dep_message.specs.Showing.{ShowsNext};
ghost use Rattle.dep_message.specs.Working.{HasLeft, HasBodySize, HasSizedHead, IsAtHead, KeepsBytes, FindsNext, ReadsOn, StandsApart, IsWorking, first_found, kept_bytes};
ghost use Rattle.dep_message.specs.declared.progress.Progress.TheVariants.{Searched, Chunked};

use crate::first::{FirstHead, FramedHead, SearchedBytes, first_head, refusal_for};
use crate::heads::is_without_body;
use crate::message::Message;
use crate::preview::Preview;
use crate::progress::{ChunkedRequest, FirstItem, Found, Progress, SizedRequest};
use dep_body::{Buffer, ChunkReader, Fed, FrameFault, Framing, UsedBytes, is_hashed_early};
use dep_fixity::HashedOctets;
use dep_head::Head;
use std::alloc::{AllocError, Global};
use std::mem;

/// The bytes of a connection that no item has used, and how far the first request of them was read.
#[derive(Drop)]
pub(crate) struct Unparsed {
    pub alloc: Global,
    pub limit: u64,
    /// The client of the first request was sent `100 Continue`.
    pub continued: bool,
    pub buffer: Buffer,
    pub progress: Progress,
}

impl Unparsed {
    /// Nothing has come. A content may have at most `limit` bytes. It takes no memory.
    pub fn new(alloc: Global, limit: u64) -> Unparsed
        ensures { KeepsBytes limit false [] result }
    {
        Unparsed {
            alloc,
            limit,
            continued: false,
            buffer: Buffer::new(alloc),
            progress: Progress::Searched(0),
        }
    }

    /// Takes the next piece of the stream. An `Err` changes nothing.
    pub fn feed(&mut self, piece: &[u8]) -> Result<(), AllocError>
        requires { IsWorking self.old }
        ensures ok { OnOk result
            (KeepsBytes self.old.limit self.old.continued (kept_bytes self.old ++ piece.now) self.new) }
        ensures err { OnErr result
            (KeepsBytes self.old.limit self.old.continued (kept_bytes self.old) self.new) }
    {
        match &mut self.progress {
            Progress::Sized(request) => request.append(piece),
            _ => self.buffer.append(piece),
        }
    }

    /// Takes the first item, where one is complete. An `Err` changes nothing.
    pub fn next(&mut self) -> Result<Option<Found>, AllocError>
        requires { IsWorking self.old }
        ensures { FindsNext self.old (kept_bytes self.old) self.new result }
    {
        self.read_on()?;
        match mem::replace(&mut self.progress, Progress::Searched(0)) {
            Progress::First(first) => {
                self.continued = matches!(first.item, Found::Continue);
                Ok(Some(first.item))
            }
            other => {
                self.keep_place(other);
                Ok(None)
            }
        }
    }

    /// Shows the first request, where it has come whole, and takes nothing. It returns whether one was shown.
    pub fn preview<P: Preview>(&mut self, by: &mut P) -> Result<bool, AllocError>
        requires { IsWorking self.old }
        ensures keeps { KeepsBytes self.old.limit self.old.continued (kept_bytes self.old) self.new }
        ensures shows { MatchResult result
            (ShowsNext P.sees by.old by.new self.old.limit
            (Open self.old.continued (kept_bytes self.old)))
            (λ _. BeginsWithHead (kept_bytes self.old) × (by.new ≡ by.old)) }
    {
        self.read_on()?;
        match &mut self.progress {
            Progress::First(first) => Ok(first.show(by)),
            _ => Ok(false),
        }
    }

    // Reads the first item as far as its bytes have come. An `Err` changes nothing.
    fn read_on(&mut self) -> Result<(), AllocError>
        requires { IsWorking self.old }
        ensures { ReadsOn self.old (kept_bytes self.old) self.new result }
    {
        match mem::replace(&mut self.progress, Progress::Searched(0)) {
            Progress::Searched(searched) => self.search(searched),
            Progress::Sized(request) => self.read_sized(request),
            Progress::Chunked(request) => self.read_chunks(request),
            Progress::First(first) => {
                self.keep_place(Progress::First(first));
                Ok(())
            }
        }
    }

    // Reads on where no head ends in so many bytes.
    fn search(&mut self, searched: usize) -> Result<(), AllocError>
        requires { HasLeft self.old (Searched searched) }
        ensures { ReadsOn self.old self.old.buffer self.new result }
    {
        let bytes = self.buffer.as_slice();
        let front = SearchedBytes { bytes, searched };
        let item = match first_head(self.alloc, self.limit, self.continued, front)? {
            FirstHead::Head(first) => return self.begin(first),
            FirstHead::Nothing => {
                let searched = bytes.len();
                self.keep_place(Progress::Searched(searched));
                return Ok(());
            }
            FirstHead::Fault(refusal, head_only) => Found::Fault(refusal, head_only),
            FirstHead::Continue => Found::Continue,
        };
        self.keep_found(item, UsedBytes::new());
        Ok(())
    }

    // Reads the body behind the first head.
    fn begin(&mut self, first: FramedHead) -> Result<(), AllocError>
        requires { IsAtHead self.old first }
        ensures { ReadsOn self.old self.old.buffer self.new result }
    {
        match first.framing {
            Framing::Empty => self.begin_sized(first, 0),
            Framing::Length(length) => self.begin_sized(first, length as usize),
            Framing::Chunked => {
                let used = self.buffer.drop_front(first.length);
                let is_hashed = is_hashed_early(&first.head);
                self.read_chunks(ChunkedRequest {
                    head: first.head,
                    used,
                    reader: ChunkReader::new(self.alloc, self.limit, is_hashed),
                })
            }
        }
    }

    fn begin_sized(&mut self, first: FramedHead, size: usize) -> Result<(), AllocError>
        requires head { IsAtHead self.old first }
        requires size { HasBodySize first.framing size }
        ensures { ReadsOn self.old self.old.buffer self.new result }
    {
        let content = self.buffer.copy_behind(first.length, size)?;
        let behind = HashedOctets::from_vec(content);
        let come = behind.as_slice().len();
        let used = UsedBytes::new().and(&self.buffer.as_slice()[..first.length]);
        self.buffer.drop_front(first.length + come);
        self.read_sized(SizedRequest {
            is_hashed: come < size && is_hashed_early(&first.head),
            head: first.head,
            used,
            length: size,
            behind,
        })
    }

    // Reads on where the head was used, and the bytes behind it stand apart: the buffer is empty, unless they are just the
    // body.
    fn read_sized(&mut self, mut request: SizedRequest) -> Result<(), AllocError>
        requires sized { HasSizedHead self.old.limit self.old.continued
            request.used.items request.head request.length }
        requires apart { StandsApart request.length request.behind self.old.buffer }
        ensures { ReadsOn self.old (request.used.items ++ (request.behind ++ self.old.buffer))
            self.new result }
    {
        if request.behind.as_slice().len() < request.length {
            self.keep_place(Progress::Sized(request));
            return Ok(());
        }
        let (body, rest) = request.behind.as_slice().split_at(request.length);
        let used = request.used.and(body);
        match self.buffer.append(rest) {
            Err(error) => {
                self.keep_place(Progress::Sized(request));
                Err(error)
            }
            Ok(()) => {
                request.behind.truncate(request.length);
                let message = Message {
                    head: request.head,
                    content: request.behind,
                };
                self.keep_found(Found::Message(message), used);
                Ok(())
            }
        }
    }

    // Reads on where the first request comes in chunks: the reader is fed the buffer, which is dropped then.
    fn read_chunks(&mut self, mut request: ChunkedRequest) -> Result<(), AllocError>
        requires { HasLeft self.old (Chunked request) }
        ensures { ReadsOn self.old (request.used.items ++ self.old.buffer) self.new result }
    {
        let bytes = self.buffer.as_slice();
        let fed = match request.reader.feed(bytes) {
            Ok(fed) => fed,
            Err(error) => {
                self.keep_place(Progress::Chunked(request));
                return Err(error);
            }
        };
        let fault = match fed {
            Fed::More => {
                request.used = request.used.and(bytes);
                self.buffer.clear();
                self.keep_place(Progress::Chunked(request));
                return Ok(());
            }
            Fed::Done(count) => {
                let used = request.used.and(&bytes[..count]);
                self.buffer.drop_front(count);
                let message = Message {
                    head: request.head,
                    content: request.reader.content(),
                };
                self.keep_found(Found::Message(message), used);
                return Ok(());
            }
            Fed::Bad => FrameFault::Bad,
            Fed::TooLarge => FrameFault::TooLarge,
        };
        let item = Found::Fault(refusal_for(fault), is_without_body(&request.head));
        self.keep_found(item, request.used);
        Ok(())
    }

    fn keep_found(&mut self, item: Found, used: UsedBytes)
        ensures { self.new ≡ record self.old { progress = first_found item used } }
    {
        self.keep_place(Progress::First(FirstItem { item, used }));
    }

    fn keep_place(&mut self, progress: Progress)
        ensures { self.new ≡ record self.old { progress = progress } }
    {
        drop(mem::replace(&mut self.progress, progress));
    }
}
