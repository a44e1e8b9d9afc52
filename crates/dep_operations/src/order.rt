//! The ruling on a request, from a view of the archive.
ghost use Rattle.std.specs.Prelude.{◌≡◌, IfOk, IfSome, option_map};
ghost use Rattle.dep_types.specs.declared.config.Config.{Config};
ghost use Rattle.dep_fixity.specs.Fixity.{digests_of};
ghost use Rattle.dep_decisions.specs.Asked.{IsContentRead};
ghost use Rattle.dep_decisions.specs.Kinds.{content_kind};
ghost use Rattle.dep_decisions.specs.Purposes.{kind_for};
ghost use Rattle.dep_decisions.specs.Laws.{refusal_before_room};
ghost use Rattle.dep_decisions.specs.Rules.{access_refusal, content_by, document_rule, has_content, reads_alone};
ghost use Rattle.dep_operations.specs.Checks.{IsCheckedBy, IsRoomRuling};
ghost use Rattle.dep_operations.specs.Seen.{in_view};
ghost use Rattle.dep_operations.specs.Rulings.{HasRoomFor, RefusesUndigested, RefusesUnnamed, RulesBy};

use crate::references::references_rule;
use crate::rules::{behalf_rule, presence_rule, seen_tag, size_rule, tag_rule};
use crate::ruling::Ruling;
use crate::view::View;
use dep_decisions::{
    Operation, Purpose, ReadContent, decision_on, digest_rule, digests_if_promised, fields_rule,
    numbers_for,
};
use dep_docs_in::{DocFault, read_metadata};
use dep_fixity::Digests;
use dep_types::{Config, Method, Refusal, Resource, Target};
use std::alloc::{AllocError, Global};

/// Returns the ruling on a request, where the archive is seen so at the numbers that it touches: the first
/// rule that applies, from rule 5 of the order of refusals in docs/PROFILE.md on, or what the request asks
/// for, whose content is for this purpose (`content_purpose`). An `Err` is lack of memory, which is asked for only where the content is held and no rule before it
/// refuses.
pub fn decide(
    alloc: Global,
    config: &Config,
    view: &View,
    operation: &Operation<'_>,
    purpose: Option<Purpose<'_>>,
) -> Result<Ruling, AllocError>
    requires { option_map kind_for purpose ≡ content_kind operation.now }
    ensures ruling { IfOk result (RulesBy config.now view.now operation.now) }
    // What is let through can be given its numbers.
    ensures room { IfOk result (HasRoomFor view.now.next) }
{
    match check(alloc, config, view, operation, purpose)? {
        Checked::Refused(refusal) => Ok(Ruling::Refuse(refusal)),
        Checked::Passed(read) => rule_by_room(alloc, view, operation, purpose, read),
    }
}

/// Returns the first of rules 5 to 14 that applies while no digest of an upload is known, where the archive is
/// seen so but for these digests, or `None`, and then [`decide`] has to look at them. What it refuses is refused
/// whatever they are (`some_are_refused_before_digests`). For a document of references the view may show no upload
/// at all: then it is the first of those rules that applies whatever the uploads are
/// (`some_are_refused_before_uploads`). It costs what the same rules cost in [`decide`]: time in the length of the
/// content, and memory for the references in it. An `Err` is lack of memory.
pub fn refusal_before_digests(
    alloc: Global,
    config: &Config,
    view: &View,
    operation: &Operation<'_>,
    purpose: Option<Purpose<'_>>,
) -> Result<Option<Refusal>, AllocError>
    requires { option_map kind_for purpose ≡ content_kind operation.now }
    ensures undigested { IfOk result (RefusesUndigested config.now view.now operation.now) }
    ensures unnamed { IfOk result (RefusesUnnamed config.now view.now operation.now) }
{
    match check(alloc, config, view, operation, purpose)? {
        Checked::Refused(refusal) => Ok(Some(refusal)),
        Checked::Passed(read) => {
            drop(read);
            Ok(None)
        }
    }
}

/// What the rules before the last one say.
#[derive(Drop)]
pub(crate) enum Checked {
    Refused(Refusal),
    /// None of them applies, and this was read of the content.
    Passed(ReadContent),
}

// Rules 5 to 14.
fn check(
    alloc: Global,
    config: &Config,
    view: &View,
    operation: &Operation<'_>,
    purpose: Option<Purpose<'_>>,
) -> Result<Checked, AllocError>
    requires { option_map kind_for purpose ≡ content_kind operation.now }
    ensures { IfOk result
        (IsCheckedBy (refusal_before_room config.now (in_view view.now) operation.now) operation.now) }
{
    if let Some(refusal) = access_rule(config, view, operation) {
        return Ok(Checked::Refused(refusal));
    }
    if has_content(operation.target.method) {
        check_content(config, view, operation, purpose, alloc)
    } else {
        Ok(Checked::Passed(ReadContent {
            metadata: None,
            digests: None,
        }))
    }
}

// Rules 5 to 7: who asks, for what, and of which state of it.
#[tactic(auto, unfolding(dep_decisions::specs::Rules::access_refusal, dep_decisions::specs::Rules::presence_rule, dep_decisions::specs::Rules::tag_rule))]
fn access_rule(config: &Config, view: &View, operation: &Operation<'_>) -> Option<Refusal>
    ensures { result ≡ access_refusal config.now (in_view view.now) operation.now }
{
    if let Some(refusal) = behalf_rule(config, operation) {
        return Some(refusal);
    }
    if let Some(refusal) = presence_rule(view, &operation.target.resource) {
        return Some(refusal);
    }
    if reads_alone(&operation.target) {
        return None;
    }
    let tag = seen_tag(view, &operation.target.resource);
    tag_rule(config, &operation.if_match, tag)
}

fn reads_alone(target: &Target) -> bool
    ensures { result ≡ reads_alone target.now.resource target.now.method }
{
    match target.method {
        Method::Delete => matches!(target.resource, Resource::Upload(_)),
        method => method.is_safe(),
    }
}

fn has_content(method: Method) -> bool
    ensures { result ≡ has_content method }
{
    match method {
        Method::Post | Method::Put => true,
        Method::Get | Method::Head | Method::Delete => false,
    }
}

// Rules 8 to 14, of a content. Nothing is hashed or read before the rules that don't need it have passed; no
// content has both a document and a size to be ruled on.
fn check_content(
    config: &Config,
    view: &View,
    operation: &Operation<'_>,
    purpose: Option<Purpose<'_>>,
    alloc: Global,
) -> Result<Checked, AllocError>
    requires { option_map kind_for purpose ≡ content_kind operation.now }
    ensures { IfOk result
        (IsCheckedBy (content_by config.now (in_view view.now) operation.now) operation.now) }
{
    if let Some(refusal) = fields_rule(operation, purpose) {
        return Ok(Checked::Refused(refusal));
    }
    let digests = digests_if_promised(operation);
    let mismatch = digest_rule(operation, digests);
    if let Some(refusal) = mismatch {
        return Ok(Checked::Refused(refusal));
    }
    if let Some(refusal) = size_rule(config, view, operation, purpose) {
        return Ok(Checked::Refused(refusal));
    }
    check_document(alloc, view, operation, purpose, digests)
}

// Rule 13: the document, where the digests of the content are these as far as they were needed. The references in
// it are those that the view has, whatever the configuration.
#[tactic(auto, unfolding(dep_decisions::specs::Rules::document_rule))]
fn check_document(
    alloc: Global,
    view: &View,
    operation: &Operation<'_>,
    purpose: Option<Purpose<'_>>,
    digests: Option<Digests>,
) -> Result<Checked, AllocError>
    requires purpose { option_map kind_for purpose ≡ content_kind operation.now }
    requires digests { IfSome digests (λ d. d ≡ digests_of operation.now.content) }
    ensures { (config : Config) → IfOk result
        (IsCheckedBy (document_rule config (in_view view.now) operation.now) operation.now) }
{
    match purpose {
        Some(Purpose::Metadata) => match read_metadata(alloc, operation.content.as_slice()) {
            Ok(metadata) => Ok(Checked::Passed(ReadContent {
                metadata: Some(metadata),
                digests,
            })),
            Err(DocFault::Malformed) => Ok(Checked::Refused(Refusal::ContentMalformed)),
            Err(DocFault::Memory) => Err(AllocError),
        },
        Some(Purpose::References) => {
            match references_rule(alloc, view)? {
                Some(refusal) => Ok(Checked::Refused(refusal)),
                None => Ok(Checked::Passed(ReadContent {
                    metadata: None,
                    digests,
                })),
            }
        }
        _ => Ok(Checked::Passed(ReadContent {
            metadata: None,
            digests,
        })),
    }
}

// Rule 15: whether the numbers that are asked for can be given, whatever the configuration.
fn rule_by_room(
    alloc: Global,
    view: &View,
    operation: &Operation<'_>,
    purpose: Option<Purpose<'_>>,
    read: ReadContent,
) -> Result<Ruling, AllocError>
    requires purpose { option_map kind_for purpose ≡ content_kind operation.now }
    requires read { IsContentRead operation.now read }
    ensures { (config : Config) → IfOk result (IsRoomRuling config view.now operation.now) }
{
    let decision = decision_on(alloc, operation, purpose, view.references.as_ref(), read)?;
    if view.next.has_room(&numbers_for(&decision)) {
        Ok(Ruling::Do(decision))
    } else {
        drop(decision);
        Ok(Ruling::Refuse(Refusal::StoreFull))
    }
}
