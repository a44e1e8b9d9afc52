//! Answers, and the replies that say them.
ghost use Rattle.std.specs.Prelude.{◌≡◌, ◌++◌, [], IfOk, IfSome, OnOk, Some, None};
ghost use Rattle.dep_types.specs.State.{State};
ghost use Rattle.dep_reply.specs.Statuses.{status_number};
ghost use Rattle.dep_answers.specs.Answers.{answer, head_of, is_silent, media_of, document_of, stored_of, Document};
ghost use Rattle.dep_answers.specs.Performing.{HasEnd, HasStatus, IsReply, Says};
ghost use Rattle.dep_answers.specs.Replies.{front_text, unless_head_only};
ghost use Rattle.dep_answers.specs.Reported.{content_of};

use crate::performed::{Delivery, Performed};
use dep_moment::Moment;
use dep_reply::{Reply, Status, spell_head};
use dep_types::{Octets, Refusal, Text};
use std::alloc::{AllocError, Global};
use std::marker::Model;

/// What a text in a reply is.
#[derive(Clone, Copy)]
pub(crate) enum Form {
    /// JSON.
    Document,
    /// Lines in UTF-8.
    PlainText,
}

impl Form {
    ghost use Rattle.std.specs.Prelude.{◌≡◌, ℕ, List};
    ghost use Rattle.dep_answers.specs.Answers.{media_of};
    ghost use Rattle.dep_answers.specs.Reported.{content_of};

    /// Its media type (RFC 9110, section 8.3).
    pub(crate) fn media(self) -> &'static str
        ensures { (bytes : List ℕ) → result.now ≡ media_of (content_of self bytes) }
    {
        match self {
            Form::Document => "application/json",
            Form::PlainText => "text/plain; charset=utf-8",
        }
    }
}

/// A text in a reply.
#[derive(Drop)]
pub(crate) struct ReplyText {
    form: Form,
    bytes: Octets,
}

impl Model for ReplyText {
    ghost use Rattle.dep_answers.specs.Answers.{ReplyContent};
    ghost use Rattle.dep_answers.specs.Reported.{content_of};

    ghost Value = { ReplyContent };

    ghost view = { λ c. content_of c.form c.bytes };
}

impl ReplyText {
    /// A text of this form.
    pub(crate) fn new(form: Form, bytes: Octets) -> ReplyText
        ensures { result ≡ content_of form bytes }
    {
        ReplyText { form, bytes }
    }

    /// JSON.
    pub(crate) fn document(bytes: Vec<u8>) -> ReplyText
        ensures { result ≡ Document bytes.items }
    {
        ReplyText::new(Form::Document, Octets::from_vec(bytes))
    }

    /// The bytes of the text.
    fn bytes(&self) -> &[u8]
        ensures text { result.now ≡ document_of (Some self.now) }
        ensures stored { stored_of (Some self.now) ≡ [] }
    {
        self.bytes.as_slice()
    }

    /// The media type of its form.
    fn media(&self) -> &'static str
        ensures { result.now ≡ media_of self.now }
    {
        self.form.media()
    }
}

/// What a reply says, apart from the clock, from who asked and from whether the connection is closed.
/// The content of a file isn't said so.
#[derive(Drop)]
pub(crate) struct Answer {
    pub(crate) status: Status,
    pub(crate) content: Option<ReplyText>,
    pub(crate) tag: Option<u64>,
    pub(crate) location: Option<Text>,
    pub(crate) allow: Option<&'static str>,
}

impl Model for Answer {
    ghost use Rattle.std.specs.Option.{option_copied};
    ghost use Rattle.dep_reply.specs.Statuses.{status_number};
    ghost use Rattle.dep_answers.specs.Answers as spec;

    ghost Value = { spec.Answer };

    ghost view = { λ a. record {
      status = status_number a.status;
      content = a.content;
      tag = a.tag;
      location = a.location;
      allow = option_copied a.allow;
    } };
}

impl Answer {
    /// An answer with no text to show. It takes no memory.
    pub(crate) fn without_content(status: Status) -> Answer
        ensures { result ≡ answer (status_number status) None None None }
    {
        Answer {
            status,
            content: None,
            tag: None,
            location: None,
            allow: None,
        }
    }

    /// An answer that shows this text.
    pub(crate) fn showing(status: Status, content: ReplyText) -> Answer
        ensures { result ≡ answer (status_number status) (Some content) None None }
    {
        Answer {
            status,
            content: Some(content),
            tag: None,
            location: None,
            allow: None,
        }
    }

    /// Returns the reply 200 that shows this text, and nothing else. An `Err` is lack of memory.
    pub(crate) fn say_text(
        alloc: Global,
        form: Form,
        bytes: Octets,
        delivery: Delivery,
    ) -> Result<Option<Performed>, AllocError>
        ensures says { IfOk result (λ said. (s : State) →
            Says s (answer 200 (Some (content_of form bytes)) None None) delivery said) }
        ensures ends { IfOk result (λ said. IfSome said HasEnd) }
    {
        Answer::showing(Status::Ok, ReplyText::new(form, bytes)).say(alloc, delivery)
    }

    /// Whether it shows nothing, though replies of its status say how long their content is.
    fn is_silent(&self) -> bool
        ensures { result ≡ is_silent self.now }
    {
        self.content.is_none() && self.status.number() != 204
    }

    /// Returns the reply that says this, or `None` where the answer is silent (`is_silent`). An `Err` is want
    /// of memory.
    pub(crate) fn say(
        self,
        alloc: Global,
        delivery: Delivery,
    ) -> Result<Option<Performed>, AllocError>
        ensures says { IfOk result (λ said. (s : State) → Says s self delivery said) }
        ensures ends { IfOk result (λ said. IfSome said HasEnd) }
    {
        let said = self.said(alloc, delivery);
        drop(self);
        said
    }

    fn said(&self, alloc: Global, delivery: Delivery) -> Result<Option<Performed>, AllocError>
        ensures says { IfOk result (λ said. (s : State) → Says s self.now delivery said) }
        ensures ends { IfOk result (λ said. IfSome said HasEnd) }
    {
        if self.is_silent() {
            return Ok(None);
        }
        Ok(Some(self.spell(alloc, None, delivery)?))
    }

    /// Returns the reply that says this: its head, and behind it the text unless the reply is bare. `refusal` is
    /// why it is a refusal.
    pub(crate) fn spell(
        &self,
        alloc: Global,
        refusal: Option<Refusal>,
        delivery: Delivery,
    ) -> Result<Performed, AllocError>
        ensures says { IfOk result (λ p. (s : State) → IsReply s self.now delivery p) }
        ensures front { IfOk result (λ p. p.front.items
            ≡ front_text self.now delivery.clock delivery.is_head_only delivery.closes) }
        ensures status { IfOk result (HasStatus self.now.status refusal) }
    {
        let mut front = spell_head(alloc, &self.head(delivery.clock, delivery.closes))?;
        self.add_text(&mut front, delivery.is_head_only)?;
        Ok(Performed {
            status: self.status,
            refusal,
            front,
            stored: None,
        })
    }

    // Adds the text behind a head, unless the reply has no body.
    fn add_text(&self, front: &mut Vec<u8>, is_head_only: bool) -> Result<(), AllocError>
        ensures text { OnOk result (front.new.items ≡
            front.old.items ++ unless_head_only is_head_only (document_of self.now.content)) }
        ensures stored { stored_of self.now.content ≡ [] }
    {
        let Some(content) = &self.content else {
            return Ok(());
        };
        let text = content.bytes();
        if is_head_only {
            return Ok(());
        }
        front.extend_from_slice(text)
    }

    fn head(&self, clock: Moment, closes: bool) -> Reply<'_>
        ensures { result ≡ head_of self.now clock closes }
    {
        let (content_type, content_length) = match &self.content {
            Some(content) => (Some(content.media()), Some(content.bytes().len() as u64)),
            None => (None, None),
        };
        Reply {
            status: self.status,
            date: clock,
            content_type,
            content_length,
            tag: self.tag,
            location: match &self.location {
                Some(location) => Some(location.as_str()),
                None => None,
            },
            allow: self.allow,
            closes,
        }
    }
}
