//! What holds of every run, apart from any code.
ghost use Rattle.std.specs.Prelude.{◌≡◌, ◌⊎◌, ℕ, List, ◌++◌, ◌∷◌, Some, codes};
ghost use Rattle.dep_types.specs.State.{State, File, file_at};
ghost use Rattle.dep_types.specs.Sound.{IsSound};
ghost use Rattle.dep_types.specs.Config.{IsChecked};
ghost use Rattle.dep_types.specs.declared.refusal.Refusal.{Refusal};
ghost use Rattle.dep_types.specs.declared.target.Target.{Target};
ghost use Rattle.dep_head.specs.Head.{EndsOnce};
ghost use Rattle.dep_message.specs.declared.message.Message.{Message};
ghost use Rattle.dep_docs_in.specs.declared.reference.Reference.{Reference};
ghost use Rattle.dep_exchange.specs.Machine.{out_of_memory, store_fault};
ghost use Rattle.dep_exchange.specs.Records.{Record, World};
ghost use Rattle.dep_connection.specs.Turns.{ServedPiece, records_of, with_closed, IsEndedBy};
ghost use Rattle.dep_hub.specs.Representing.{IsClean};
ghost use Rattle.dep_hub.specs.declared.hub.Hub.{Hub};
ghost use Rattle.dep_server.specs.Requests.{AnyStep, ticked, made, AnyRequest, left_by, reply_to, IsPostAccepted, IsPostedTo, IsAcceptedSegment};
ghost use Rattle.dep_server.specs.Runs.{AnyRun, ContinuesTo, TalksThen, PointOf, state_at, RequestIn, as_it_came};
ghost use Rattle.dep_server.specs.Talks.{EndedTalk};
ghost use Rattle.dep_server.specs.Calls.{Calls, RepresentsMore};
ghost use Rattle.dep_server.specs.Calm.{AnyCalmRun, BeginAlike, RunsEndAlike};
ghost use Rattle.dep_server.specs.Streams.{AreSpelled, streams_of, items_of, HaveSameStreams, HaveSameItems, HaveSameSchedulePoints};
ghost use Rattle.dep_server.specs.HeadOnly.{step_as, IsWithoutBody};
ghost use Rattle.dep_server.specs.ReplyHeads.{IsUnsplit};
ghost use Rattle.dep_server.specs.Refused.{refusal_in, IsRefusedWith};
ghost use Rattle.dep_server.specs.Moves.{moves_of, state_by};
ghost use Rattle.dep_server.specs.Acknowledged.{WasAt, HasSegment, HasNoOther, IsGone, BeginsWithStatus, IsReceived, SegmentStaysFrom};
ghost use Rattle.dep_server.specs.TakenAgain.{RequestInWork, as_begun, CouldTake, IsTakenAgain};
ghost use Rattle.dep_server.specs.Deposited.{FileStaysFrom, IsDeposit, EntryStaysFrom};

use dep_hub::Archive;

/// The archive promise, for every list of calls: a hub on which calls were made one after another,
/// each of which left of it what its contract says, represents the records of these calls, where its
/// store is open at the last: behind those that it represented at first, which are none where
/// `Hub::new` made it, and those up to a stop where that was over a store that was opened again.
pub fn calls_stand_for_their_records<A: Archive>()
    ensures { (old new : Hub A) (records : List Record) → Calls A.condition old records new
        → IsClean A.condition new → RepresentsMore A.condition old new records }
{}

/// Runs without failed steps that make the same steps send the same bytes, each connection its own,
/// and end in the same state.
pub fn cuts_move_moments_of_runs()
    ensures { (a b : AnyCalmRun) → BeginAlike a b → a.steps ≡ b.steps → RunsEndAlike a b }
{}

/// A run without failed steps makes of the streams of each connection the items that they spell,
/// and no others.
pub fn streams_make_the_steps()
    ensures { (calm : AnyCalmRun) (n : ℕ) → AreSpelled calm.run.config.max_upload
        (streams_of n calm.run.records) (items_of n calm.steps) }
{}

/// How the bytes are cut into pieces moves the schedule points of requests, that is when each is complete
/// and in which order among the connections, and nothing else: two runs without failed steps over
/// which the same streams come make the same items of each connection; and where these come on the
/// same schedule points, both send the same bytes, to each connection its own, and end in the same state.
pub fn cuts_move_schedule_points()
    ensures items { (a b : AnyCalmRun) → BeginAlike a b → HaveSameStreams a b
        → HaveSameItems a b }
    ensures end { (a b : AnyCalmRun) → BeginAlike a b → HaveSameStreams a b
        → HaveSameSchedulePoints a b → RunsEndAlike a b }
{}

/// A HEAD is stepped as the GET of the same path: its reply has the same head, with the length of the body,
/// and no body.
pub fn heads_have_no_body()
    ensures { (request : AnyRequest)
        → IsWithoutBody (step_as (codes "GET") request) (step_as (codes "HEAD") request) }
{}

/// No reply can be read as two, whatever was deposited: what is sent for an item of a sound machine
/// begins with a head that ends at its first empty line, and has its own lines and no others; and
/// so do the fixed replies.
pub fn replies_are_unsplit()
    ensures steps { (step : AnyStep) → IsChecked step.config → IsSound step.state
        → IsUnsplit step.item (made step).front }
    ensures fixed { EndsOnce out_of_memory × EndsOnce store_fault }
{}

/// A step keeps a sound state sound, whatever came and at whatever moment.
pub fn steps_keep_sound()
    ensures { (step : AnyStep) → IsSound step.state → IsSound (made step).state }
{}

/// What happens to the machine keeps its state sound, also where a step fails.
pub fn runs_keep_sound()
    ensures { (run : AnyRun) → IsSound run.first → IsSound run.last.state }
{}

/// A refused item changes nothing but what its tick does, and is sent the reply to its refusal.
pub fn refused_items_change_nothing()
    ensures { (step : AnyStep) (why : Refusal) → refusal_in step ≡ Some why
        → IsRefusedWith (ticked step) why (made step) }
{}

/// The moves of a run lead from its first state to its last.
pub fn moves_make_the_state()
    ensures { (run : AnyRun) → run.last.state ≡ state_by run.config run.first (moves_of run.run) }
{}

/// A segment that is accepted stands in the state that its step leaves, with the content of the
/// request.
pub fn accepted_segment_stands()
    ensures { (request : AnyRequest) (u k : ℕ) → IsAcceptedSegment request u k
        → HasSegment (left_by request) u k request.message.content }
{}

/// A POST to an upload whose reply has the status 204 leaves the segment that it names there, with
/// its content. So what stays (`acknowledged_stays`) begins with the reply that was sent.
pub fn replied_segment_stands()
    ensures { (request : AnyRequest) (u : ℕ) → IsPostedTo request.message u
        → BeginsWithStatus 204 (reply_to request) → IsReceived (left_by request) request.message u }
{}

/// Once it stands there and its reply was sent it stays, whatever happens and also where a stop
/// breaks the arrival, for as long as its upload is there: until that is deposited, deleted or
/// timed out. An upload that is gone stays so.
pub fn acknowledged_stays()
    ensures { (run : AnyRun) (s : State) (u k : ℕ) (bytes : List ℕ) → IsSound run.first
        → WasAt run s → HasSegment s u k bytes
        → HasSegment run.last.state u k bytes ⊎ IsGone run.last.state u }
{}

/// A segment that stands there stays, whatever happens and also where a stop breaks an arrival,
/// until a request that deposits or deletes its upload is accepted, or the upload times out.
pub fn segments_stay()
    ensures { (run : AnyRun) (point : PointOf run) (u k : ℕ) (bytes : List ℕ) → IsSound run.first
        → HasSegment (state_at point) u k bytes → SegmentStaysFrom point u k bytes }
{}

/// A client may always send a segment again whose request was in work when a run ended: whether its
/// step failed or a stop broke it, and whatever that left of it, the same request is accepted and
/// answered 204 at each moment at which the upload is still there.
pub fn segment_in_work_is_taken_again()
    ensures { (run : AnyRun) (request : RequestInWork run) (u : ℕ)
        → IsPostAccepted (as_begun request) u → IsTakenAgain run request.message u }
{}

/// Once the step of an accepted segment is made, the same request is accepted and answered 204 at
/// each moment at which the upload is still there, whatever happens between and whether its first
/// reply came through or not.
pub fn received_segments_are_taken_again()
    ensures { (run : AnyRun) (request : RequestIn run) (u : ℕ) → IsSound run.first
        → IsPostAccepted (as_it_came request) u → IsTakenAgain run request.message u }
{}

/// A segment that a run could take once is taken at its end too, however often it has come and
/// whatever stops have left of it: at each moment at which its upload is still there, unless other
/// bytes were received as this segment.
pub fn segments_are_taken_again()
    ensures { (run : AnyRun) (message : Message) (u k : ℕ) → IsSound run.first
        → CouldTake run message u k → HasNoOther run.last.state u k message.content
        → IsTakenAgain run message u }
{}

/// A file stays as it is, whatever happens and also where a stop breaks an arrival, until a PUT or
/// a DELETE of the file, of the files of its object, or of the object is accepted.
pub fn files_stay()
    ensures { (run : AnyRun) (point : PointOf run) (n f : ℕ) (file : File) → IsSound run.first
        → file_at (state_at point) n f ≡ Some file → FileStaysFrom point n f file }
{}

/// The file that an accepted deposit by reference makes of an upload stands under the next number
/// once its step is made, with the upload's segments joined, their size, every digest that was
/// promised at the upload's opening and every digest that its entry promises; and it stays so.
pub fn deposited_files_stay()
    ensures { (run : AnyRun) (request : RequestIn run) (t : Target) (i : ℕ) (reference : Reference)
        → IsSound run.first → IsDeposit (as_it_came request) t i reference
        → EntryStaysFrom request t i reference }
{}

/// What the machine answers to the turns of a connection is a run, from its opening to its close.
pub fn turns_make_a_run()
    ensures { (run : AnyRun) (number : ℕ) (turns : List ServedPiece) (talked : World)
        → TalksThen run number turns talked
        → ContinuesTo run (records_of number turns) (with_closed number talked) }
{}

/// A turn that does not leave its connection open is the last one, and shows why the connection is served no
/// longer: where a reply was cut, because the outlet failed, and where it was closed, because of that. Where the
/// outlet has given up behind the last turn, the connection ended because of that, whatever the turn came to.
pub fn last_turn_reports_the_end()
    ensures { (talk : EndedTalk) (before behind : List ServedPiece) (t : ServedPiece)
        → talk.turns ≡ before ++ t ∷ behind → IsEndedBy t.answer talk.has_failed behind talk.end }
{}
