//! Laws of the answers, apart from any code.
ghost use Rattle.std.specs.Prelude.{◌≡◌, ℕ, Bool, true, false, List, [], codes, Option, Some, None, IsTrue, is_some, IfSome, map as each};
ghost use Rattle.dep_types.specs.Base.{IsBase};
ghost use Rattle.dep_types.specs.State.{State, Object as StateObject};
ghost use Rattle.dep_types.specs.Sound.{IsSound};
ghost use Rattle.dep_types.specs.declared.config.Config.{Config as AConfig};
ghost use Rattle.dep_types.specs.declared.refusal.Refusal.{Refusal as ARefusal};
ghost use Rattle.dep_types.specs.declared.target.Method.{Method as AMethod};
ghost use Rattle.dep_types.specs.declared.target.Resource.{Resource as AResource};
ghost use Rattle.dep_types.specs.declared.target.Method.TheVariants.{Get as AGet, Post as APost, Put as APut};
ghost use Rattle.dep_types.specs.declared.target.Resource.TheVariants.{Service as AService, Object as AnObject, Staging as AStaging, Upload as AnUpload, File as AFile, Metadata as AMetadata};
ghost use Rattle.dep_decisions.specs.LookUps.{in_state};
ghost use Rattle.dep_decisions.specs.Rules.{refusal, presence_refusal};
ghost use Rattle.dep_decisions.specs.declared.operation.Operation.{Operation as AnOperation};
ghost use Rattle.dep_reply.specs.Lines.{is_unbroken, IsUnbroken};
ghost use Rattle.dep_bag.specs.Bag.{bag_files};
ghost use Rattle.dep_answers.specs.Answers.{bytes_of, head_of};
ghost use Rattle.dep_answers.specs.Bags.{bag_entries};
ghost use Rattle.dep_docs_out.specs.ExampleDocuments.{example_config};
ghost use Rattle.dep_answers.specs.Examples.{example_state, created_reply, upload_reply, file_head, changed_reply};
ghost use Rattle.dep_answers.specs.Laws.{IsReportedObject, IsReportedUpload, IsReportedTag, IsReportedRefusal, IsPostOrPut, file_read, is_shown};
ghost use Rattle.dep_answers.specs.declared.performed.FileId.{FileId as AFileId};
ghost use Rattle.dep_answers.specs.Replies.{answer_to, content_at, refused_answer, front_text, stored_text};
ghost use Rattle.dep_answers.specs.Steps.{operation_step};

/// What is shown at the paths of an object's bag are the files of the bag.
pub fn bags_show_their_files()
    ensures { (n : ℕ) (o : StateObject)
        → each (λ entry. (entry.0, bytes_of entry.1)) (bag_entries n o) ≡ bag_files o }
{}

/// No text in the head of an answer breaks a line, whatever was deposited, so that none can begin
/// another field or another reply (RFC 9112, section 11.1).
pub fn answers_are_unbroken()
    ensures accepted { (config : AConfig) (s : State) (r : AResource) (m : AMethod) (clock : ℕ)
        (closes : Bool)
        → IsBase config.base → IsSound s
        → IsUnbroken (head_of (answer_to config s r m) clock closes) }
    ensures refused { (r : ARefusal) (allow : Option (List ℕ)) (clock : ℕ) (closes : Bool)
        → IfSome allow (λ text. IsTrue (is_unbroken text))
        → IsUnbroken (head_of (refused_answer clock r allow) clock closes) }
{}

/// A GET of what is there is answered with something to show.
pub fn what_is_there_is_shown()
    ensures { (config : AConfig) (s : State) (r : AResource) → IsTrue (is_shown r)
        → presence_refusal (in_state s) r ≡ None → is_some (content_at config s r) ≡ true }
{}

/// A deposit on the Service-URL is answered with the object that it made, under the number that was
/// next, with the number of the change as its tag, and with its URL.
pub fn deposits_are_reported_their_object()
    ensures { (config : AConfig) (s : State) (op : AnOperation) → op.target.resource ≡ AService
        → op.target.method ≡ APost → refusal config s op ≡ None → IsReportedObject config s op }
{}

/// An opening is answered with the upload that it made, under the number that was next, all of
/// whose segments are still to come, and with its URL.
pub fn openings_are_reported_their_upload()
    ensures { (config : AConfig) (s : State) (op : AnOperation) → op.target.resource ≡ AStaging
        → op.target.method ≡ APost → refusal config s op ≡ None → IsReportedUpload config s op }
{}

/// A POST and a PUT on an Object-URL are answered with the number of the change as the object's
/// tag.
pub fn changes_are_reported_their_tag()
    ensures { (config : AConfig) (s : State) (op : AnOperation) (n : ℕ)
        → op.target.resource ≡ AnObject n → IsPostOrPut op
        → refusal config s op ≡ None
        → IsReportedTag config s op }
{}

/// A refused request changes nothing: it leaves the state as it was, and is sent the reply to its
/// refusal, without the document where it is a HEAD, and nothing behind it.
pub fn refused_requests_change_nothing()
    ensures state { (config : AConfig) (s : State) (op : AnOperation) (r : ARefusal)
        → refusal config s op ≡ Some r → (operation_step config s op).state ≡ s }
    ensures reply { (config : AConfig) (s : State) (op : AnOperation) (r : ARefusal)
        → refusal config s op ≡ Some r → IsReportedRefusal config s op r }
    ensures alone { (config : AConfig) (s : State) (op : AnOperation) (r : ARefusal)
        → refusal config s op ≡ Some r → (operation_step config s op).stored ≡ [] }
{}

/// The content of a file is sent for a GET alone, and it is that of the file that the resource names.
pub fn contents_are_of_the_named_file()
    ensures { (config : AConfig) (s : State) (op : AnOperation) (id : AFileId) → IsSound s
        → (operation_step config s op).source ≡ Some id
        → (op.target.method ≡ AGet) × (file_read op.target.resource ≡ Some id) }
{}

/// The whole reply to a deposit of one file.
pub fn deposit_of_example()
    ensures { front_text (answer_to example_config example_state AService APost) 1523836800 false false
        ≡ created_reply }
{}

/// The whole reply to a GET of an upload, after which the connection is closed.
pub fn upload_of_example()
    ensures { front_text
        (answer_to example_config example_state (AnUpload 1) AGet) 1523836800 false true
        ≡ upload_reply }
{}

/// The head of the reply to a GET of a file, which is that of the HEAD, and the content behind it.
pub fn file_of_example()
    ensures head { (is_head_only : Bool) → front_text
        (answer_to example_config example_state (AFile 1 1) AGet) 1523836800 is_head_only false
        ≡ file_head }
    ensures sent { stored_text (answer_to example_config example_state (AFile 1 1) AGet) false
        ≡ codes "abc" }
    ensures unsent { stored_text (answer_to example_config example_state (AFile 1 1) AGet) true
        ≡ [] }
{}

/// The whole reply to a PUT of metadata.
pub fn metadata_of_example()
    ensures { front_text
        (answer_to example_config example_state (AMetadata 1) APut) 1523836800 false false
        ≡ changed_reply }
{}
