//! The clause that is being resolved, as notes.

ghost use Rattle.std.specs.Prelude.{◌≡◌, ℕ, ◌+◌, ◌<◌, ◌≤◌, Some, IsTrue, length};
ghost use Rattle.tel_base.specs.declared.literals.Lit.{Lit as ALit};
ghost use Rattle.clause_store.specs.Closure.{In, Lits};
ghost use Rattle.clause_store.specs.Held.{clauses_in};
ghost use Rattle.lit_trail.specs.Entries.{level_in};
ghost use Rattle.lit_trail.specs.Sound.{holds, ReasonsHold};
ghost use Rattle.clause_learn.specs.FirstUip.{resolvent};
ghost use Rattle.clause_learn.specs.Noted.{AreNotes, AreOpen, AreReady, FalseOrMarked, MarksStay, OthersFalse, Leads, Resolves, added, joined, unmarked};
ghost use Rattle.clause_learn.specs.Room.{marked_at};

use clause_store::Store;
use lit_trail::Trail;
use smallvec::SmallVec;
use tel_base::Lit;

/// A clause whose literals are false, as far as its levels above 0 are concerned.
#[derive(Drop)]
pub struct Notes {
    /// By variable, whether a literal of it is in the clause.
    pub marks: Vec<bool>,
    /// The literals below the trail's level. A short list lies in place.
    pub lits: SmallVec<Lit, 16>,
    /// How many literals are of the trail's level.
    pub left: usize,
}

impl Notes {
    /// The literals that are listed.
    pub fn clause(&self) -> &[Lit]
        ensures { result.now ≡ self.now.lits.items }
    {
        self.lits.as_slice()
    }

    /// Notes a literal that is false, unless its variable is marked or of level 0.
    fn add_lit(&mut self, lit: Lit, trail: &Trail)
        requires ready { AreReady trail.now self.old }
        requires noted { AreNotes trail.now self.old }
        requires lit { FalseOrMarked trail.now self.old lit }
        ensures ready { AreReady trail.now self.new }
        ensures marks { MarksStay self.old self.new }
        ensures size { length self.new.marks.items ≡ length self.old.marks.items }
        ensures capacity { self.old.lits.capacity ≤ self.new.lits.capacity }
        ensures noted { Leads trail.now (λ set. added trail.now.entries set lit) self.old self.new }
    {
        let var = lit.var as usize;
        if self.marks[var] {
            return;
        }
        match trail.level_of(lit.var) {
            None => {}
            Some(level) => {
                if level == trail.level() {
                    self.marks[var] = true;
                    self.left += 1;
                } else if level > 0 {
                    self.marks[var] = true;
                    self.lits.push_reserved(lit);
                }
            }
        }
    }

    /// Notes the false literals of a clause.
    pub fn add(&mut self, clause: &[Lit], trail: &Trail)
        requires ready { AreReady trail.now self.old }
        requires noted { AreNotes trail.now self.old }
        requires clause { (lit : ALit) → In lit clause.now → FalseOrMarked trail.now self.old lit }
        ensures ready { AreReady trail.now self.new }
        ensures marks { MarksStay self.old self.new }
        ensures size { length self.new.marks.items ≡ length self.old.marks.items }
        ensures capacity { self.old.lits.capacity ≤ self.new.lits.capacity }
        ensures noted { Leads trail.now (λ set. joined trail.now.entries set clause.now) self.old self.new }
    {
        for lit in clause {
            self.add_lit(*lit, trail);
        }
    }

    /// Resolves with the reason of a marked literal of the trail's level.
    fn resolve_by(&mut self, reason: &[Lit], lit: Lit, trail: &Trail)
        requires ready { AreReady trail.now self.old }
        requires noted { AreNotes trail.now self.old }
        requires held { IsTrue (holds trail.now.entries lit) }
        requires level { level_in trail.now.entries lit.var ≡ Some trail.now.level }
        requires marked { IsTrue (marked_at self.old.marks.items lit.var) }
        requires others { OthersFalse trail.now lit reason.now }
        ensures ready { AreReady trail.now self.new }
        ensures size { length self.new.marks.items ≡ length self.old.marks.items }
        ensures capacity { self.old.lits.capacity ≤ self.new.lits.capacity }
        ensures noted { Leads trail.now (λ set. resolvent set lit reason.now) self.old self.new }
    {
        self.add(reason, trail);
        self.marks[lit.var as usize] = false;
        self.left -= 1;
    }

    /// Resolves until one literal of the trail's level is left, and answers it. Its variable stays marked. The trail has so many
    /// places.
    pub fn resolve(&mut self, store: &Store, trail: &Trail, places: usize) -> Lit
        requires places { places ≡ length trail.now.entries }
        requires ready { AreReady trail.now self.old }
        requires noted { AreOpen trail.now self.old }
        requires reasons { ReasonsHold (clauses_in store.now.clauses) trail.now.entries }
        ensures ready { AreReady trail.now self.new }
        ensures size { length self.new.marks.items ≡ length self.old.marks.items }
        ensures capacity { self.old.lits.capacity ≤ self.new.lits.capacity }
        ensures resolved { Resolves (clauses_in store.now.clauses) trail.now result self.old self.new }
    {
        for place in 0..places {
            let entry = trail.entry(place);
            if self.marks[entry.lit.var as usize] {
                if self.left == 1 {
                    return entry.lit.negated();
                }
                match entry.reason {
                    Some(id) => self.resolve_by(store.clause(id), entry.lit, trail),
                    None => unreachable!(),
                }
            }
        }
        unreachable!()
    }
}

/// Takes the marks of these literals away.
pub fn unmark(marks: &mut Vec<bool>, lits: &[Lit])
    requires { (lit : ALit) → In lit lits.now → lit.var < length marks.old.items }
    ensures { marks.new.items ≡ unmarked lits.now marks.old.items }
{
    for lit in lits {
        marks[lit.var as usize] = false;
    }
}
