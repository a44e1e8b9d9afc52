//! Whole documents, computed.
ghost use Rattle.std.specs.Prelude.{◌≡◌, ◌≤◌, ℕ, List, ◌∷◌, [], Some};
ghost use Rattle.dep_types.specs.Limits.{greatest_moment};
ghost use Rattle.dep_docs_out.specs.ReadBack.{ReadsAs, IsReadBack, HasTexts, FileHasTexts, HasKeptNames, MetadataHasTexts, HasNumbers, DocumentsObject};
ghost use Rattle.serde_json.specs.Data.{Data};
ghost use Rattle.serde_json.specs.Read.{read};
ghost use Rattle.dep_types.specs.Config.{HasLimits};
ghost use Rattle.dep_types.specs.State.{Texts};
ghost use Rattle.dep_types.specs.declared.refusal.Refusal.{Refusal as ARefusal};
ghost use Rattle.dep_types.specs.declared.config.Config.{Config as AConfig};
ghost use Rattle.dep_types.specs.declared.rows.ObjectView.{ObjectView as AnObjectView};
ghost use Rattle.dep_types.specs.declared.rows.UploadRow.{UploadRow as AnUploadRow};
ghost use Rattle.std.specs.List.{AllByRecursion};
ghost use Rattle.dep_docs_out.specs.Documents.{bag_metadata_data, bag_metadata_document, error_data, error_document, metadata_data, metadata_document, service_data, service_document, status_data, status_document, upload_data, upload_document};
ghost use Rattle.dep_docs_out.specs.ExampleDocuments.{example_config, example_empty, example_object, example_unfinished, example_title, example_titles, example_upload, bag_metadata_text, empty_text, error_text, metadata_text, service_text, status_text, unfinished_text, upload_text};
ghost use Rattle.dep_types.specs.Rows.{object_view};
ghost use Rattle.dep_types.specs.declared.refusal.Refusal.TheVariants.{DigestMismatch};

/// The documents of the example are these texts. Its objects are one that has a file, one in progress, with a file that
/// was posted on behalf of another and one that came by reference, and one without files; its metadata are three
/// titles, and one title in a bag. Of its upload the second segment of three is still to come, and its error is a
/// content that does not match its digest.
pub fn documents_of_the_example()
    ensures service { service_document example_config ≡ service_text }
    ensures error { error_document DigestMismatch 1523836800 ≡ error_text }
    ensures status { status_document example_config (object_view 1 example_object) ≡ status_text }
    ensures in_progress { status_document example_config (object_view 7 example_unfinished)
        ≡ unfinished_text }
    ensures empty { status_document example_config (object_view 1 example_empty) ≡ empty_text }
    ensures titles { metadata_document example_config 1 example_titles ≡ metadata_text }
    ensures bag { bag_metadata_document example_title ≡ bag_metadata_text }
    ensures upload { upload_document example_config example_upload (1 ∷ 3 ∷ []) ≡ upload_text }
{}

/// The service document is read back as the value that it spells.
pub fn service_document_is_read_back()
    ensures { (config : AConfig) → HasTexts config → HasLimits config
        → IsReadBack (service_data config) }
{}

/// The error document is read back as the value that it spells.
pub fn error_document_is_read_back()
    ensures { (refusal : ARefusal) (clock : ℕ) → clock ≤ greatest_moment
        → IsReadBack (error_data refusal clock) }
{}

/// The status document is read back as the value that it spells.
pub fn status_document_is_read_back()
    ensures { (config : AConfig) (view : AnObjectView) → HasTexts config
        → AllByRecursion FileHasTexts view.files
        → IsReadBack (status_data config view) }
{}

/// Whatever a status document is read as, each number, tag and date in it is that of its row.
pub fn status_document_reports_its_rows()
    ensures { (config : AConfig) (view : AnObjectView) (d : Data)
        → read (status_document config view) ≡ Some d → DocumentsObject config view d }
{}

/// The metadata document is read back as the value that it spells.
pub fn metadata_document_is_read_back()
    ensures { (config : AConfig) (n : ℕ) (texts : Texts) → HasTexts config
        → HasKeptNames texts → MetadataHasTexts texts
        → IsReadBack (metadata_data config n texts) }
{}

/// The metadata document of a bag is read back as the value that it spells.
pub fn bag_metadata_document_is_read_back()
    ensures { (texts : Texts) → HasKeptNames texts → MetadataHasTexts texts
        → ReadsAs (bag_metadata_document texts) (bag_metadata_data texts) }
{}

/// The document of an upload is read back as the value that it spells.
pub fn upload_document_is_read_back()
    ensures { (config : AConfig) (row : AnUploadRow) (received : List ℕ) → HasTexts config
        → HasNumbers row received
        → IsReadBack (upload_data config row received) }
{}
