//! A document of JSON that is being written.
ghost use Rattle.std.specs.Prelude.{◌≡◌, ◌∷◌, ◌++◌, [], ℕ, List, IfOk, decimal, false};
ghost use Rattle.json.specs.Token.{begin_object, end_object};
ghost use Rattle.json.specs.Reads.{token_of};
ghost use Rattle.json.specs.Print.{print, IsPrintable};
ghost use Rattle.serde_json.specs.Data.{boolean};
ghost use Rattle.dep_moment.specs.Civil.{rfc3339_text};
ghost use Rattle.dep_docs_out.specs.Made.{MakesText};
ghost use Rattle.dep_docs_out.specs.Json as spec;
ghost use Rattle.dep_docs_out.specs.Json.{AddsTokens, AddsItems, AddsMember, nothing};

use crate::spelled_moment::SpelledMoment;
use dep_moment::Moment;
use itoa::Buffer;
use json::{Token, Writer};
use std::alloc::{AllocError, Global};
use std::marker::Model;

/// What the names in each document mean (JSON-LD 1.1, section 3.1).
pub(crate) const CONTEXT: &str = "https://swordapp.github.io/swordv3/swordv3.jsonld";

/// A document of JSON that is being written, of which only the text is kept. That a part could not be written, for want
/// of memory, is told once it is ended. Contracts see the tokens so far, and whether one was not written.
#[derive(Drop)]
pub(crate) struct Document {
    out: Writer,
    has_failed: bool,
    // The moment that was added last. Many files come at one moment, which is spelled once.
    last: Option<SpelledMoment>,
}

impl Model for Document {
    ghost use Rattle.std.specs.Prelude.{◌≡◌, []};
    ghost use Rattle.dep_docs_out.specs.Json.{Draft, draft_code};

    ghost Value = { Draft };

    ghost coded = { draft_code };

    ghost view = { λ d. record { has_failed = d.has_failed; tokens = d.out.tokens } };

    ghost invariant = { λ d. d.out.before ≡ [] };
}

impl Document {
    /// A document that begins with `{`.
    pub fn begun(alloc: Global) -> Result<Document, AllocError>
        ensures { IfOk result (λ document. AddsTokens nothing document (begin_object ∷ [])) }
    {
        let mut document = Document {
            out: Writer::new(Vec::with_capacity(alloc, 1024)?),
            has_failed: false,
            last: None,
        };
        document.token(Token::BeginObject);
        Ok(document)
    }

    /// Adds a token.
    pub fn token(&mut self, token: Token<'_>)
        requires { IsPrintable (token_of token) }
        ensures { AddsTokens self.old self.new (token_of token.entry ∷ []) }
    {
        self.has_failed |= self.out.token(token).is_err();
    }

    /// Adds a text, as an item of a list or as the value of a member.
    pub fn text_item(&mut self, text: &str)
        ensures { AddsItems self.old self.new (spec.text text.now ∷ []) }
    {
        self.token(Token::String(text));
    }

    /// Adds a whole number, as an item of a list or as the value of a member.
    pub fn whole_number_item(&mut self, number: u64)
        ensures { AddsItems self.old self.new (spec.whole_number number ∷ []) }
    {
        self.has_failed |= self.out.u64(number).is_err();
    }

    /// Adds a member that is a text.
    pub fn text(&mut self, name: &str, text: &str)
        ensures { AddsMember self.old self.new name.now (spec.text text.now) }
    {
        self.token(Token::Key(name));
        self.token(Token::String(text));
    }

    /// Adds a member that is a text, if the text could be made.
    pub fn made_text(&mut self, name: &str, made: Result<String, AllocError>)
        ensures { (bytes : List ℕ) → MakesText made bytes
            → AddsMember self.old self.new name.now (spec.text bytes) }
    {
        match made {
            Ok(text) => self.text(name, text.as_str()),
            Err(_) => self.has_failed = true,
        }
    }

    /// Adds a member that is a text: the decimal digits of a number.
    pub fn decimal(&mut self, name: &str, number: u64)
        ensures { AddsMember self.old self.new name.now (spec.text (decimal number)) }
    {
        let mut digits = Buffer::new();
        self.text(name, digits.format(number));
    }

    /// Adds a member that is a text: the day and the time of day of a moment in UTC (RFC 3339).
    pub fn moment(&mut self, name: &str, moment: Moment)
        ensures { AddsMember self.old self.new name.now (spec.text (rfc3339_text moment)) }
    {
        let spelled = SpelledMoment::behind(self.last, moment);
        self.last = Some(spelled);
        self.text(name, spelled.as_str());
    }

    /// Adds a member that is a whole number.
    pub fn whole_number(&mut self, name: &str, number: u64)
        ensures { AddsMember self.old self.new name.now (spec.whole_number number) }
    {
        self.token(Token::Key(name));
        self.whole_number_item(number);
    }

    /// Adds a member that is `true` or `false`.
    pub fn flag(&mut self, name: &str, flag: bool)
        ensures { AddsMember self.old self.new name.now (boolean flag) }
    {
        self.token(Token::Key(name));
        self.token(Token::Bool(flag));
    }

    /// Adds a member that is a list of one text.
    pub fn only(&mut self, name: &str, text: &str)
        ensures { AddsMember self.old self.new name.now (spec.only text.now) }
    {
        self.token(Token::Key(name));
        self.token(Token::BeginArray);
        self.text_item(text);
        self.token(Token::EndArray);
    }

    /// Ends the object that was begun first, and returns the bytes of the document, if all of it was written.
    pub fn ended(mut self) -> Result<Vec<u8>, AllocError>
        ensures { IfOk result (λ bytes. (self.has_failed ≡ false)
            × (bytes.items ≡ print (self.tokens ++ end_object ∷ []))) }
    {
        self.token(Token::EndObject);
        if self.has_failed {
            return Err(AllocError);
        }
        Ok(self.out.into_inner())
    }
}
