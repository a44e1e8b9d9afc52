//! All connections, and the one store that they share.
ghost use Rattle.std.specs.Prelude.{◌+◌, ◌≡◌, ◌≤◌, [], ◌∷◌, ◌++◌, List, length, MatchResult, IfOk, IfErr, OnErr, IfSome, None, IsErrOf, IsSome, ◌⊎◌, ◌≢◌};
ghost use Rattle.dep_types.specs.State.{State};
ghost use Rattle.dep_types.specs.Config.{IsChecked};
ghost use Rattle.dep_types.specs.Conditions.{Represents, Leaves};
ghost use Rattle.dep_exchange.specs.Records.{Connect, Close, Record, World, Run, Absent, Live, stopped, first_world};
ghost use Rattle.dep_hub.specs.Claims.{is_any_pending, is_any_waiting};
ghost use Rattle.dep_hub.specs.Numbers.{Ascends, Ascends-prop, HasPlace, most_connections, last_number};

use crate::connections::{ConnId, Connection, ListedConnection, index_among};
use crate::faults::{ConnectFault, HubFault};
use crate::keeping::{kept_by, look_at};
use crate::pending::{
    is_any_pending, is_any_waiting, is_awaited, next_prepared, still_pending, still_waiting,
    waits_on,
};
use crate::preparing::prepare;
use crate::rest::{Behind, behind_of, left_of};
use crate::sent_on::SentOn;
use dep_exchange::{
    AccessLog, Archive, Arrived, Contents, Context, Next, NoLog, Piece, Site, give_up, serve,
    take_next,
};
use dep_message::Intake;
use dep_moment::Moment;
use dep_types::{Config, ConfigFault, Outlet, StoreFault};
use std::alloc::{AllocError, Global};

/// All connections, and the one store that they share.
#[derive(Drop)]
pub struct Hub<A> {
    config: Site,
    store: A,
    connections: Vec<Connection>,
    next: u64,
    // The number of the connection for whose next request `work_ahead` made a step last.
    last_turn: u64,
    // A content is being sent, or a request waits.
    is_busy: bool,
    // A request waits.
    is_awaiting: bool,
    // No number is there twice, and the next one is above them.
    ghost ascends: { Ascends 0 connections.items next } by { Ascends-prop 0 connections.items next },
    ghost busy: { is_busy ≡ is_any_pending connections.items },
    ghost awaiting: { is_awaiting ≡ is_any_waiting connections.items },
}

const MOST_CONNECTIONS: usize = 1_024;

const LAST_NUMBER: u64 = 4_000_000_000_000_000_000;

impl<A: Archive> Hub<A> {
    ghost use Rattle.dep_hub.specs.Representing.{RepresentsAfter, RepresentsAt, GoesOnFrom, GoesOnAs, IsHonest, KeepsStore, LeavesStore, LeavesItsState, store_of, AddsRecord, Transition, ComesTo, intake_of};
    ghost use Rattle.dep_hub.specs.Holding.{HoldsOn, RestsOn, LineTransition, OffersTo, with_held};
    ghost use Rattle.dep_hub.specs.RepresentsOwing.{behind_at, is_awaited_at, KeepsBack, NextIsAnswerable, NextIsFree, NextIsPrepared, RepliesOver, SendsOn};
    ghost use Rattle.dep_hub.specs.Claims.{is_content};
    ghost use Rattle.dep_hub.specs.WorkingAhead.{RestsAhead};
    ghost use Rattle.dep_hub.specs.Numbers.{place_of_number};
    ghost use Rattle.std.specs.Prelude.{ℕ, Option, Some, ◌==◌, ◌<◌, if◌then◌else◌, true, false};
    ghost use Rattle.dep_exchange.specs.Archives.{KeepsAll, CommitsIfDue};
    ghost use Rattle.dep_exchange.specs.Shut.{ReportsOpen};
    ghost use Rattle.dep_exchange.specs.ArchiveCalls.{Asked, WorkedAhead, Runs, FailsToReport};

    /// A hub over the store, without connections. A refusal hands the store back.
    // Where this is inlined, LLVM takes seconds for the large values that meet.
    #[inline(never)]
    pub fn new(alloc: Global, config: Config, store: A) -> Result<Hub<A>, (HubFault, A)>
        ensures represents { IfOk result (λ hub. (first : State) → Represents (A.condition store) first
            → RepresentsAfter A.condition hub first []) }
        // Also after a stop.
        ensures again { IfOk result (GoesOnFrom A.condition config store) }
        ensures config { IfOk result (λ hub. hub.config ≡ config) }
        ensures kept { IfOk result (λ hub. hub.store ≡ store) }
        ensures checked { IfOk result (λ _. IsChecked config) }
        ensures refused { IfErr result (λ fault. fault.0 ≡ HubFault.Config → ¬ IsChecked config) }
        ensures next { IfOk result (λ hub. hub.next ≡ 0) }
        ensures store { IfErr result (λ fault. fault.1 ≡ store) }
    {
        match config.check(alloc) {
            Ok(()) => {}
            Err(ConfigFault::Memory) => {
                drop(config);
                return Err((HubFault::Memory, store));
            }
            Err(ConfigFault::Base | ConfigFault::Limit) => {
                drop(config);
                return Err((HubFault::Config, store));
            }
        }
        let Ok(config) = Site::new(alloc, config) else {
            return Err((HubFault::Memory, store));
        };
        Ok(Hub {
            config,
            store,
            connections: Vec::new(alloc),
            next: 0,
            last_turn: 0,
            is_busy: false,
            is_awaiting: false,
        })
    }

    /// Opens a connection, and returns its number. An `Err` changes nothing.
    pub fn connect(&mut self) -> Result<ConnId, ConnectFault>
        ensures adds { IfOk result
            (λ number. AddsRecord A.condition self.old self.new (Connect number) []) }
        ensures moves { IfOk result
            (λ number. Transition A.condition self.old self.new (Connect number) []) }
        ensures same { OnErr result ((w : World) → RepresentsAt A.condition self.old w
            → RepresentsAt A.condition self.new w) }
        // What the others hold stays.
        ensures holding { MatchResult result
            (λ number. LineTransition A.condition self.old self.new number (Live []) (λ held. held))
            (λ _. HoldsOn A.condition self.old self.new) }
        ensures config { self.new.config ≡ self.old.config }
        ensures store { self.new.store ≡ self.old.store }
        ensures next { IfOk result (λ number.
            (number ≡ self.old.next) × (self.new.next ≡ self.old.next + 1)) }
        ensures turn { self.new.last_turn ≡ self.old.last_turn }
        // It refuses for a reason.
        ensures full { IsErrOf result ConnectFault.Full
            → (most_connections ≤ length self.old.connections.items)
            ⊎ (last_number ≤ self.old.next) }
        // It takes no connection more than there may be, and a refusal takes no number.
        ensures room { IfOk result (λ _.
            HasPlace (length self.old.connections.items) self.old.next) }
        // Nor is memory what it lacks where there is no place.
        ensures memory { IsErrOf result ConnectFault.Memory
            → HasPlace (length self.old.connections.items) self.old.next }
        ensures kept { OnErr result (self.new.next ≡ self.old.next) }
        ensures fresh { IfOk result (λ number. intake_of self.old.connections.items number ≡ None) }
        ensures there { IfOk result
            (λ number. IsSome (intake_of self.new.connections.items number)) }
        // So what they are still to be sent.
        ensures behind { (m : ℕ) → behind_at self.new.connections.items m
            ≡ behind_at self.old.connections.items m }
        // What a stop now leaves.
        ensures rests { LeavesItsState A.condition self.old (store_of A.condition self.new) }
    {
        if self.connections.len() >= MOST_CONNECTIONS || self.next >= LAST_NUMBER {
            return Err(ConnectFault::Full);
        }
        let number = self.next;
        let connection = Connection {
            number,
            intake: Intake::new(
                self.config.alloc(),
                self.config.service().config().max_upload,
            ),
            behind: Behind::Nothing,
        };
        if let Err(refused) = self.connections.push(connection) {
            drop(refused);
            return Err(ConnectFault::Memory);
        }
        self.next += 1;
        Ok(ConnId::new(number))
    }

    /// Takes a piece of a connection's stream, and sends what it calls for.
    pub fn arrive<O: Outlet>(
        &mut self,
        connection: ConnId,
        piece: &[u8],
        moment: Moment,
        out: &mut O,
    ) -> Arrived
        ensures arrival { ComesTo A.condition (O.taken out.old) (O.taken out.new)
            (O.failures out.old) (O.failures out.new)
            self.old self.new connection piece.now moment result }
        ensures turn { self.new.last_turn ≡ self.old.last_turn }
    {
        let Some(i) = index_among(self.connections.as_slice(), connection) else {
            return Arrived::NoSuch;
        };
        let kept = &mut self.connections[i];
        let piece = Piece {
            bytes: piece,
            moment,
        };
        serve(&self.config, &mut self.store, &mut kept.intake, &piece, out)
    }

    /// Takes a piece of a connection's stream, and answers nothing of it: `answer` does, one item at a time.
    /// Where memory runs out the fixed reply for it is sent, and the connection is `Closed`, or `Cut`.
    /// Otherwise it is `Open`, also where it has ended, which the next `answer` returns. Nothing bounds what
    /// is held: offer no more before an `answer` was `Waiting`.
    pub fn offer<O: Outlet>(&mut self, connection: ConnId, piece: &[u8], out: &mut O) -> Arrived
        ensures kept { KeepsStore A.condition self.old self.new }
        ensures absent { intake_of self.old.connections.items connection ≡ None
            → result ≡ Arrived.NoSuch }
        // A connection that was there is there.
        ensures there { IsSome (intake_of self.old.connections.items connection)
            → (result ≢ Arrived.NoSuch) × IsSome (intake_of self.new.connections.items connection) }
        ensures offers { OffersTo A.condition (O.taken out.old) (O.taken out.new)
            (O.failures out.old) (O.failures out.new)
            self.old self.new connection piece.now result }
        ensures behind { (m : ℕ) → behind_at self.new.connections.items m
            ≡ behind_at self.old.connections.items m }
        ensures turn { self.new.last_turn ≡ self.old.last_turn }
    {
        let Some(i) = index_among(self.connections.as_slice(), connection) else {
            return Arrived::NoSuch;
        };
        let kept = &mut self.connections[i];
        match kept.intake.feed(piece) {
            Ok(()) => Arrived::Open,
            Err(AllocError) => give_up(&mut kept.intake, out, &mut NoLog),
        }
    }

    /// Answers the next item of a connection, where one is complete in what was offered. It sends one reply at
    /// most, and the log is told of the request and the reply. The content of a file behind the reply is sent by
    /// `send_on`. While it isn't all sent, no further item is answered, and nothing changes: `None`.
    ///
    /// So it is too where the next request has come whole and has to wait. One that puts or deletes files waits for their
    /// contents that are being sent, and from then on no GET of these files is answered before it, so they end. While a
    /// part of it alone has come it waits for nothing, and no GET waits for it.
    ///
    /// And so it is, before that, where the next request has come whole and is prepared first, by `work_ahead`, a part each
    /// time: where it names uploads these are hashed, and where its reply is made of all the texts of an object's metadata
    /// or of all its files these are read. Behind that it is answered, or waits as the others.
    pub fn reply<O: Outlet, L: AccessLog>(
        &mut self,
        connection: ConnId,
        moment: Moment,
        out: &mut O,
        log: &mut L,
    ) -> Option<Next>
        ensures goes { GoesOnAs A.condition self.old self.new }
        ensures absent { intake_of self.old.connections.items connection ≡ None
            → result ≡ Some Next.NoSuch }
        // A connection that was there is there.
        ensures there { IsSome (intake_of self.old.connections.items connection)
            → (result ≢ Some Next.NoSuch) × IsSome (intake_of self.new.connections.items connection) }
        ensures later { result ≡ None
            → KeepsBack A.condition (O.taken out.old) (O.taken out.new) (O.failures out.old) (O.failures out.new)
            self.old self.new connection }
        ensures free { IfSome result (λ _. NextIsFree self.old connection) }
        // What names uploads, or shows all texts or files, is prepared first.
        ensures prepared { IfSome result (λ _. NextIsPrepared self.old connection) }
        // What is behind an answer isn't broken off.
        ensures unbroken { IfSome result (λ _.
            behind_at self.new.connections.items connection ≢ Behind.Broken) }
        ensures replies { IfSome result (RepliesOver A.condition (O.taken out.old) (O.taken out.new)
            (O.failures out.old) (O.failures out.new) self.old self.new connection moment) }
        ensures turn { self.new.last_turn ≡ self.old.last_turn }
    {
        let Some(i) = index_among(self.connections.as_slice(), connection) else {
            return Some(Next::NoSuch);
        };
        if self.keeps_back(connection, i) {
            return None;
        }
        let listed = ListedConnection {
            connection,
            index: i,
        };
        Some(self.answer_at(listed, moment, out, log))
    }

    // Keeps the next request of a connection back, unless its next item may be answered: whether it does.
    fn keeps_back(&mut self, connection: ConnId, i: usize) -> bool
        requires index { place_of_number connection self.old.connections.items ≡ Some i }
        requires within { i < length self.old.connections.items }
        ensures answerable { result ≡ false → (self.new ≡ self.old)
            × NextIsAnswerable self.old.connections.items connection }
        ensures kept { result ≡ true → (taken : Option (List ℕ)) (failures : ℕ)
            → KeepsBack A.condition taken taken failures failures self.old self.new connection }
        ensures turn { self.new.last_turn ≡ self.old.last_turn }
    {
        let kept = &self.connections[i];
        if waits_on(self.connections.as_slice(), kept.behind) {
            return true;
        }
        let look = look_at(&self.config, self.is_busy, &mut self.connections[i]);
        let Some(behind) = kept_by(self.connections.as_slice(), look) else {
            return false;
        };
        self.connections[i].behind = behind;
        self.is_busy = is_any_pending(self.connections.as_slice());
        self.is_awaiting = is_any_waiting(self.connections.as_slice());
        true
    }

    // Answers the next item of a connection, which isn't kept back.
    fn answer_at<O: Outlet, L: AccessLog>(
        &mut self,
        listed: ListedConnection,
        moment: Moment,
        out: &mut O,
        log: &mut L,
    ) -> Next
        requires index { place_of_number listed.connection self.old.connections.items ≡ Some listed.index }
        requires within { listed.index < length self.old.connections.items }
        requires free { NextIsAnswerable self.old.connections.items listed.connection }
        ensures goes { GoesOnAs A.condition self.old self.new }
        ensures there { (result ≢ Next.NoSuch)
            × IsSome (intake_of self.new.connections.items listed.connection) }
        ensures unbroken { behind_at self.new.connections.items listed.connection ≢ Behind.Broken }
        ensures replies { RepliesOver A.condition (O.taken out.old) (O.taken out.new)
            (O.failures out.old) (O.failures out.new) self.old self.new listed.connection moment result }
        ensures turn { self.new.last_turn ≡ self.old.last_turn }
    {
        let kept = &mut self.connections[listed.index];
        let context = Context {
            site: &self.config,
            moment,
            contents: Contents::InSteps,
        };
        let (next, rest) = take_next(&context, &mut self.store, &mut kept.intake, out, log);
        let behind = behind_of(rest);
        kept.behind = behind;
        self.is_busy = still_pending(self.connections.as_slice(), self.is_busy, behind);
        self.is_awaiting = still_waiting(self.connections.as_slice(), self.is_awaiting);
        next
    }

    /// Whether a content is still to be sent to a connection.
    pub fn is_sending(&self, connection: ConnId) -> bool
        ensures { result ≡ is_content (behind_at self.now.connections.items connection) }
    {
        match self.behind(connection) {
            Behind::Content(_) => true,
            _ => false,
        }
    }

    /// Whether a content is still to be sent to a connection that a waiting request of some connection takes. Such a
    /// one is to be sent on whatever its client takes, so that the request is answered.
    pub fn is_awaited(&self, connection: ConnId) -> bool
        ensures { result ≡ is_awaited_at self.now.connections.items connection }
    {
        if !self.is_awaiting {
            return false;
        }
        is_awaited(self.connections.as_slice(), self.behind(connection))
    }

    // What is behind the last reply of a connection.
    fn behind(&self, connection: ConnId) -> Behind
        ensures { result ≡ behind_at self.now.connections.items connection }
    {
        match index_among(self.connections.as_slice(), connection) {
            Some(i) => self.connections[i].behind,
            None => Behind::Nothing,
        }
    }

    /// Sends a few blocks more of the content behind the last reply of a connection.
    pub fn send_on<O: Outlet>(&mut self, connection: ConnId, out: &mut O) -> SentOn
        ensures goes { GoesOnAs A.condition self.old self.new }
        ensures sends { SendsOn A.condition (O.taken out.old) (O.taken out.new)
            (O.failures out.old) (O.failures out.new) self.old self.new connection result }
        ensures turn { self.new.last_turn ≡ self.old.last_turn }
    {
        let Some(i) = index_among(self.connections.as_slice(), connection) else {
            return SentOn::All;
        };
        match self.connections[i].behind {
            Behind::Nothing | Behind::Waits(_) | Behind::Prepares(_) | Behind::Prepared =>
                SentOn::All,
            Behind::Broken => SentOn::Broken,
            Behind::Content(rest) => {
                let streamed = self.store.stream_on(rest, out);
                let (left, sent_on) = left_of(rest, streamed);
                self.connections[i].behind = left;
                self.is_busy = still_pending(self.connections.as_slice(), self.is_busy, left);
                sent_on
            }
        }
    }

    /// Whether the store is open, as far as that can be known (`Archive::is_open`). No connection has a part
    /// in it, so it is no event of a run.
    pub fn is_open(&mut self) -> Result<bool, StoreFault>
        ensures reported { IfOk result (ReportsOpen (store_of A.condition self.new)) }
        ensures cause { IsHonest A.condition self.new
            → IfErr result (FailsToReport (A.call_log self.old.store) (A.call_log self.new.store)) }
        ensures asked { Runs (Asked result) (A.call_log self.old.store)
            (A.call_log self.new.store) }
        ensures rests { RestsOn A.condition KeepsAll self.old self.new }
        ensures turn { self.new.last_turn ≡ self.old.last_turn }
    {
        self.store.is_open()
    }

    /// Does a part of the work that a later request would have to wait for, and returns whether more is left
    /// (`Archive::work_ahead`). Where requests are kept back until the uploads that they name are hashed, or the texts or files
    /// that they show are read, it is a part of that, for each of them in turn; such a one is answered by `reply` once no more
    /// of it is left, or so many steps were made as may be. It is no event of a run.
    pub fn work_ahead(&mut self) -> bool
        ensures asked { Runs (WorkedAhead result) (A.call_log self.old.store)
            (A.call_log self.new.store) }
        // It commits only what is due.
        ensures commits { CommitsIfDue (A.may_commit self.old.store)
            (A.may_commit self.new.store)
            (store_of A.condition self.old) (store_of A.condition self.new) }
        ensures rests { RestsAhead A.condition self.old self.new }
    {
        let Some(i) = next_prepared(self.connections.as_slice(), self.last_turn, self.next) else {
            return self.store.work_ahead(self.config.service(), None);
        };
        let kept = &mut self.connections[i];
        self.last_turn = kept.number;
        prepare(&self.config, &mut self.store, kept)
    }

    /// Forgets a connection. What it holds is dropped, and one that isn't there changes nothing.
    pub fn close(&mut self, connection: ConnId)
        ensures adds { AddsRecord A.condition self.old self.new (Close connection) [] }
        ensures moves { Transition A.condition self.old self.new (Close connection) [] }
        // What it held never arrives, and what the others hold stays.
        ensures holding { LineTransition A.condition self.old self.new connection Absent
            (with_held connection []) }
        ensures gone { intake_of self.new.connections.items connection ≡ None }
        // What it was still to be sent is forgotten.
        ensures behind { (m : ℕ) → behind_at self.new.connections.items m
            ≡ (if m == connection then Behind.Nothing
            else behind_at self.old.connections.items m) }
        // So what a stop now leaves.
        ensures kept { LeavesStore A.condition self.old self.new }
        ensures turn { self.new.last_turn ≡ self.old.last_turn }
    {
        if let Some(i) = index_among(self.connections.as_slice(), connection) {
            drop(self.connections.remove(i));
            self.is_busy = is_any_pending(self.connections.as_slice());
            self.is_awaiting = is_any_waiting(self.connections.as_slice());
        }
    }

    /// Hands back the store.
    pub fn into_store(self) -> A
        ensures same { result ≡ self.store }
        ensures represents { (w : World) → RepresentsAt A.condition self w
            → Represents (A.condition result) w.state }
        // What a stop now leaves is what the machine keeps, and represents the records with a stop.
        ensures rests { LeavesItsState A.condition self (A.condition result) }
        ensures stop { (first : State) (records : List Record)
            → RepresentsAfter A.condition self first records
            → Leaves (A.condition result)
            (λ found. Run self.config first (records ++ stopped ∷ []) (first_world found)) }
    {
        let Hub {
            config,
            store,
            connections,
            next: _,
            last_turn: _,
            is_busy: _,
            is_awaiting: _,
        } = self;
        drop(config);
        drop(connections);
        store
    }
}
