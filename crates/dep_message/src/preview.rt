//! What looks at a request before it is taken.
ghost use Rattle.std.specs.Prelude.{◌≡◌};

use crate::message::Message;

/// What looks at a whole request before it is taken, and hands it back.
pub trait Preview {
    ghost use Rattle.dep_message.specs.declared.message.Message.{Message as MessageValue};

    /// What is so once it was shown a message, by what it was before and after.
    ghost sees: { Self → Self → MessageValue → Type 0 };

    /// Looks at a message, and returns it. How far its content was hashed is no part of its value, and may be another.
    fn preview(&mut self, message: Message) -> Message
        ensures same { result ≡ message }
        ensures seen { sees self.old self.new message };
}
