//! The listing of the traces of a length.

ghost use Rattle.std.specs.Prelude.{◌≡◌, ℕ, ◌-◌, ◌<◌, ◌≤◌, List, [], IfOk, IfErr, OnOk, OnErr};
ghost use Rattle.tel_base.specs.Members.{In};
ghost use Rattle.tel_rule.specs.Ground.{Ground};
ghost use Rattle.atom_space.specs.Numbers.{end_at};
ghost use Rattle.lit_trail.specs.Unassigned.{visible_below};
ghost use Rattle.formula_unfold.specs.Nodes.{counts_of};
ghost use Rattle.trace_list.specs.declared.stages.Stage.TheVariants as stages;
ghost use Rattle.trace_list.specs.Lengths.{HasLength};
ghost use Rattle.trace_list.specs.Listing.{AddsSome, left_of, Fits, IsListing, GoesOn, StaysEnded, stage_of};
ghost use Rattle.search_laws.specs.Origins.{Kept};
ghost use Rattle.search_log.specs.Writing.{CountsFaults};
ghost use Rattle.search_log.specs.declared.fault.ListFault.TheVariants as faults;
ghost use Rattle.trace_list.specs.Logging.{IsLast, HasLast, WritesHeld, OnAdded, WritesStep, LogsWhole, LogsFront};
ghost use Rattle.trace_list.specs.Seeking.{left, OnSeeking, Keeps, Seeks, IsSame, Tells, after_step};

use crate::reading::read_trace;
use crate::stages::{Next, Stage};
use atom_space::AtomSpace;
use cdcl_search::{Search, Step};
use clause_store::{ClauseId, ClauseKind};
use proof_log::Kind;
use search_log::{LineWriter, ListFault, end_length};
use std::alloc::Global;
use std::marker::Model;
use tel_base::Sink;
use unfounded_sets::Founded;

/// The listing of the traces of a length, in their order, each when it is asked for.
///
/// The search over which it goes is passed to each call, and the sink of its log. Contracts see the variables of the states, the
/// length, the budget of clauses, and where the listing stands.
#[derive(Drop)]
pub struct Listing {
    space: AtomSpace,
    n: u32,
    conflicts: Option<u64>,
    stage: Stage,
    writer: LineWriter,
}

/// Writes the line of the clause that the search holds last.
fn write_last<F: Founded + Drop, L: Sink>(
    writer: &mut LineWriter,
    search: &Search<F>,
    id: ClauseId,
    log: &mut L,
) -> Result<(), ListFault>
    requires { HasLast search.now id }
    ensures { (before : List Kept) (one : Kept) → IsLast search.now id before one → WritesHeld result search.now.ground one (L.bytes log.old) (L.bytes log.new) (L.faults log.old) (L.faults log.new) }
{
    let store = search.store();
    let clause = store.clause(id);
    match store.kind(id) {
        ClauseKind::Module => writer.write_clause(log, Kind::Module, clause),
        ClauseKind::Learnt => writer.write_clause(log, Kind::Learnt, clause),
        ClauseKind::Block => writer.write_clause(log, Kind::Block, clause),
        ClauseKind::Loop => match search.loop_set(id) {
            Some(one) => writer.write_loop(log, one.atom, one.set.as_slice(), clause),
            None => unreachable!(),
        },
    }
}

/// Where a listing stands behind a step of the search.
fn stage_after(step: Step) -> Stage
    ensures { result ≡ after_step step }
{
    match step {
        Step::Added(_) => Stage::Seeking,
        Step::Found => Stage::Found,
        Step::Closed => Stage::Complete,
        Step::Spent => Stage::Spent,
    }
}

impl Model for Listing {
    ghost use Rattle.trace_list.specs.Listing.{View};

    ghost Value = { View };

    ghost view = { λ listing. record { space = listing.space; n = listing.n; conflicts = listing.conflicts; stage = listing.stage } };
}

impl Listing {
    /// Begins the listing of the length `n` over a search that has the modules of its states, with the variables of `space`. At most
    /// `conflicts` loop clauses and learnt ones are added for it, or as many as it takes where this is `None`.
    pub fn begin<F: Founded + Drop>(
        alloc: Global,
        search: &mut Search<F>,
        space: AtomSpace,
        n: u32,
        conflicts: Option<u64>,
    ) -> Listing
        requires some { 0 < n }
        requires within { n ≤ space.greatest }
        requires visible { (var : ℕ) → In var (visible_below space.counts n) → var < search.old.vars }
        requires ending { end_at space.counts (n - 1) < search.old.vars }
        ensures listing { (program : Ground) → space.counts ≡ counts_of program → HasLength program n search.old [] → IsListing program n search.old.kept result search.new [] }
        ensures conflicts { result.conflicts ≡ conflicts }
        ensures stage { result.stage ≡ stages.Seeking }
        ensures ground { search.new.ground ≡ search.old.ground }
        ensures kept { search.new.kept ≡ search.old.kept }
        ensures vars { search.new.vars ≡ search.old.vars }
    {
        search.begin(space, n);
        Listing {
            space,
            n,
            conflicts,
            stage: Stage::Seeking,
            writer: LineWriter::new(alloc),
        }
    }

    /// The next trace, or that there is none, or that the budget is used up. The clause that blocks a trace is added when the next
    /// one is asked for. A listing that has ended answers the same again.
    ///
    /// The line of each clause that comes is written to `log`, and that of the end of a complete length. After an error a front of
    /// such lines is written, and the listing isn't used again, and neither is its search.
    pub fn next_trace<F: Founded + Drop, L: Sink>(
        &mut self,
        search: &mut Search<F>,
        alloc: Global,
        log: &mut L,
    ) -> Result<Next, ListFault>
        requires { Fits self.old search.old }
        ensures goes { IfOk result (λ next. GoesOn self.old search.old self.new search.new next) }
        ensures stage { IfOk result (λ next. self.new.stage ≡ stage_of next) }
        ensures ended { OnOk result (StaysEnded self.old search.old self.new search.new) }
        ensures adds { OnOk result (AddsSome search.old.kept search.new.kept) }
        ensures conflicts { self.new.conflicts ≡ self.old.conflicts }
        ensures ground { search.new.ground ≡ search.old.ground }
        ensures vars { search.new.vars ≡ search.old.vars }
        ensures logs { OnOk result (LogsWhole self.old search.old self.new search.new (L.bytes log.old) (L.bytes log.new)) }
        ensures front { OnErr result (LogsFront self.old search.old (L.bytes log.old) (L.bytes log.new)) }
        ensures faults { CountsFaults result (L.faults log.old) (L.faults log.new) }
    {
        match self.leave_last(search, log) {
            Ok(()) => {}
            Err(fault) => return Err(fault),
        }
        match self.seek(search, log) {
            Ok(()) => self.tell(search, alloc),
            Err(fault) => Err(fault),
        }
    }

    /// Blocks the trace that was found.
    fn leave_last<F: Founded + Drop, L: Sink>(
        &mut self,
        search: &mut Search<F>,
        log: &mut L,
    ) -> Result<(), ListFault>
        requires { Fits self.old search.old }
        ensures fits { OnOk result (Fits self.new search.new) }
        ensures stage { OnOk result (self.new.stage ≡ left self.old.stage) }
        ensures same { IsSame self.old self.new }
        ensures ended { OnOk result (StaysEnded self.old search.old self.new search.new) }
        ensures keeps { OnOk result (Keeps self.old search.old self.new search.new) }
        ensures adds { OnOk result (AddsSome search.old.kept search.new.kept) }
        ensures ground { search.new.ground ≡ search.old.ground }
        ensures vars { search.new.vars ≡ search.old.vars }
        ensures logs { OnOk result (LogsWhole self.old search.old self.new search.new (L.bytes log.old) (L.bytes log.new)) }
        ensures front { OnErr result (LogsFront self.old search.old (L.bytes log.old) (L.bytes log.new)) }
        ensures faults { CountsFaults result (L.faults log.old) (L.faults log.new) }
    {
        match self.stage {
            Stage::Found => {
                let id = match search.block() {
                    Ok(id) => id,
                    Err(_) => return Err(ListFault::Memory),
                };
                match write_last(&mut self.writer, search, id, log) {
                    Ok(()) => {
                        self.stage = Stage::Seeking;
                        Ok(())
                    }
                    Err(fault) => Err(fault),
                }
            }
            _ => Ok(()),
        }
    }

    /// Takes steps of the search until a trace is found or the listing ends.
    fn seek<F: Founded + Drop, L: Sink>(
        &mut self,
        search: &mut Search<F>,
        log: &mut L,
    ) -> Result<(), ListFault>
        requires fits { Fits self.old search.old }
        requires left { left self.old.stage ≡ self.old.stage }
        ensures fits { OnOk result (Fits self.new search.new) }
        ensures sought { OnOk result (OnSeeking self.new.stage ⊥) }
        ensures same { IsSame self.old self.new }
        ensures ended { OnOk result (StaysEnded self.old search.old self.new search.new) }
        ensures seeks { OnOk result (Seeks self.old search.old self.new search.new) }
        ensures adds { OnOk result (AddsSome search.old.kept search.new.kept) }
        ensures ground { search.new.ground ≡ search.old.ground }
        ensures vars { search.new.vars ≡ search.old.vars }
        ensures logs { OnOk result (LogsWhole self.old search.old self.new search.new (L.bytes log.old) (L.bytes log.new)) }
        ensures front { OnErr result (LogsFront self.old search.old (L.bytes log.old) (L.bytes log.new)) }
        ensures faults { CountsFaults result (L.faults log.old) (L.faults log.new) }
    {
        'seeking: while let Stage::Seeking = self.stage {
            match self.step(search, log) {
                Ok(()) => {}
                Err(fault) => return Err(fault),
            }
        }
        Ok(())
    }

    /// Takes a step of the search.
    fn step<F: Founded + Drop, L: Sink>(
        &mut self,
        search: &mut Search<F>,
        log: &mut L,
    ) -> Result<(), ListFault>
        requires fits { Fits self.old search.old }
        requires seeking { self.old.stage ≡ stages.Seeking }
        ensures fits { OnOk result (Fits self.new search.new) }
        ensures same { IsSame self.old self.new }
        ensures seeks { OnOk result (Seeks self.old search.old self.new search.new) }
        ensures adds { OnOk result (AddsSome search.old.kept search.new.kept) }
        ensures falls { OnOk result (OnSeeking self.new.stage (left_of search.new < left_of search.old)) }
        ensures ground { search.new.ground ≡ search.old.ground }
        ensures vars { search.new.vars ≡ search.old.vars }
        ensures logs { OnOk result (LogsWhole self.old search.old self.new search.new (L.bytes log.old) (L.bytes log.new)) }
        ensures front { OnErr result (LogsFront self.old search.old (L.bytes log.old) (L.bytes log.new)) }
        ensures faults { CountsFaults result (L.faults log.old) (L.faults log.new) }
    {
        let step = match search.next(self.conflicts) {
            Ok(step) => step,
            Err(_) => return Err(ListFault::Memory),
        };
        match self.write_step(search, step, log) {
            Ok(()) => {
                self.stage = stage_after(step);
                Ok(())
            }
            Err(fault) => Err(fault),
        }
    }

    /// Writes the line of a step: that of the clause that was added, or that of the end where the walk is closed.
    fn write_step<F: Founded + Drop, L: Sink>(
        &mut self,
        search: &Search<F>,
        step: Step,
        log: &mut L,
    ) -> Result<(), ListFault>
        requires { OnAdded step (λ id. HasLast search.now id) }
        ensures same { self.new ≡ self.old }
        ensures writes { WritesStep result step self.old.n search.now (L.bytes log.old) (L.bytes log.new) (L.faults log.old) (L.faults log.new) }
    {
        match step {
            Step::Added(id) => write_last(&mut self.writer, search, id, log),
            Step::Closed => end_length(log, self.n),
            Step::Found => Ok(()),
            Step::Spent => Ok(()),
        }
    }

    /// The answer where the listing stands.
    fn tell<F: Founded + Drop>(&self, search: &Search<F>, alloc: Global) -> Result<Next, ListFault>
        requires within { self.now.n ≤ self.now.space.greatest }
        requires sought { OnSeeking self.now.stage ⊥ }
        ensures next { IfOk result (λ next. Tells self.now search.now next) }
        ensures fault { IfErr result (λ fault. fault ≡ faults.Memory) }
    {
        match self.stage {
            Stage::Found => match read_trace(alloc, search.trail(), &self.space, self.n) {
                Ok(trace) => Ok(Next::Trace(trace)),
                Err(_) => Err(ListFault::Memory),
            },
            Stage::Complete => Ok(Next::Complete),
            Stage::Spent => Ok(Next::Spent),
            Stage::Seeking => unreachable!(),
        }
    }
}
