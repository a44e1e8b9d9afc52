//! A head as a whole.
ghost use Rattle.std.specs.Prelude.{◌≡◌, ℕ, List, IsTrue};
ghost use Rattle.dep_head.specs.Head.{EndsOnce};
ghost use Rattle.dep_types.specs.Base.{IsBase};
ghost use Rattle.dep_types.specs.Names.{is_media};
ghost use Rattle.dep_reply.specs.Head.{ReplyHead, head_text};
ghost use Rattle.dep_reply.specs.ExampleHeads.{not_allowed_head, not_allowed_text, created_head, created_text, no_content_head, no_content_text};
ghost use Rattle.dep_reply.specs.Lines.{IsUnbroken, is_unbroken, head_lines, lines_in};

/// The head of the reply to a method that the resource does not have, on a connection that is then closed.
pub fn head_of_method_not_allowed()
    ensures { head_text not_allowed_head ≡ not_allowed_text }
{}

/// The head of the reply to a deposit.
pub fn head_of_created()
    ensures { head_text created_head ≡ created_text }
{}

/// The head of a reply without content.
pub fn head_of_no_content()
    ensures { head_text no_content_head ≡ no_content_text }
{}

/// A head whose texts break no line is read as it was written: it ends at its first empty line, and has its own
/// lines and no others. So no text in it can begin another field, or another reply (RFC 9112, section 11.1).
pub fn unbroken_heads_end_once()
    ensures ends { (r : ReplyHead) → IsUnbroken r → EndsOnce (head_text r) }
    ensures lines { (r : ReplyHead) → IsUnbroken r → lines_in (head_text r) ≡ head_lines r }
{}

/// A media type breaks no line.
pub fn media_types_are_unbroken()
    ensures { (text : List ℕ) → IsTrue (is_media text) → IsTrue (is_unbroken text) }
{}

/// A base of the server's URLs breaks no line.
pub fn bases_are_unbroken()
    ensures { (text : List ℕ) → IsBase text → IsTrue (is_unbroken text) }
{}
