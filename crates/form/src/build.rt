// The rewritings of b!, b, X! f and f U g, whose parts are shared within a pair.
ghost use Rattle.std.specs.Prelude.{◌≡◌, ℕ, ◌+◌, ◌*◌, ◌<◌, ◌≤◌, length};
ghost use Rattle.psl.specs.Syntax.{strong, weak, negated, conjoined, next, until};
ghost use Rattle.psl.specs.Removal.{unclock};
ghost use Rattle.form.specs.Draft.{on_tick_of};
ghost use Rattle.form.specs.Draft.{conditions_in, sequences_in, formulas_in, Built, Room, condition_in, formula_in};

use crate::draft::Draft;
use psl::entry::{Condition, Formula};

// Stays: that a number names an entry is asked at each call, since it speaks of the draft of that moment, and a number can't carry that.
impl Draft {
    // (not c)! U (c and b)!
    pub(crate) fn add_strong(&mut self, c: u16, b: u16) -> u16
        requires clock { c < length (conditions_in self.old) }
        requires under { b < length (conditions_in self.old) }
        requires room { Room self.old 2 3 }
        ensures { Built self.old self.new (unclock (condition_in self.old c) (strong (condition_in self.old b))) result 2 3 }
    {
        let idle = self.add_condition(Condition::Not(c));
        let hit = self.add_condition(Condition::And(c, b));
        let wait = self.add_formula(Formula::Strong(idle));
        let last = self.add_formula(Formula::Strong(hit));
        self.add_formula(Formula::Until(wait, last))
    }

    // not ((not c)! U (c and not b)!)
    pub(crate) fn add_weak(&mut self, c: u16, b: u16) -> u16
        requires clock { c < length (conditions_in self.old) }
        requires under { b < length (conditions_in self.old) }
        requires room { Room self.old 3 4 }
        ensures { Built self.old self.new (unclock (condition_in self.old c) (weak (condition_in self.old b))) result 3 4 }
    {
        let other = self.add_condition(Condition::Not(b));
        let found = self.add_strong(c, other);
        self.add_formula(Formula::Not(found))
    }

    // not (c! and not f) U (c! and g)
    pub(crate) fn add_until(&mut self, c: u16, f: u16, g: u16) -> u16
        requires clock { c < length (conditions_in self.old) }
        requires left { f < length (formulas_in self.old) }
        requires right { g < length (formulas_in self.old) }
        requires room { Room self.old 0 6 }
        ensures { Built self.old self.new
            (until (negated (conjoined (strong (condition_in self.old c)) (negated (formula_in self.old f)))) (conjoined (strong (condition_in self.old c)) (formula_in self.old g))) result 0 6 }
    {
        let tick = self.add_formula(Formula::Strong(c));
        let fails = self.add_formula(Formula::Not(f));
        let bad = self.add_formula(Formula::And(tick, fails));
        let fine = self.add_formula(Formula::Not(bad));
        let last = self.add_formula(Formula::And(tick, g));
        self.add_formula(Formula::Until(fine, last))
    }

    // wait U (tick and g)
    fn on_tick(&mut self, wait: u16, tick: u16, g: u16) -> u16
        requires first { wait < length (formulas_in self.old) }
        requires second { tick < length (formulas_in self.old) }
        requires third { g < length (formulas_in self.old) }
        requires room { Room self.old 0 2 }
        ensures { Built self.old self.new
            (until (formula_in self.old wait) (conjoined (formula_in self.old tick) (formula_in self.old g))) result 0 2 }
    {
        let both = self.add_formula(Formula::And(tick, g));
        self.add_formula(Formula::Until(wait, both))
    }

    // (not c)! U (c! and X! ((not c)! U (c! and g)))
    pub(crate) fn add_next(&mut self, c: u16, g: u16) -> u16
        requires clock { c < length (conditions_in self.old) }
        requires under { g < length (formulas_in self.old) }
        requires room { Room self.old 1 7 }
        ensures { Built self.old self.new
            (on_tick_of (condition_in self.old c) (next (on_tick_of (condition_in self.old c) (formula_in self.old g)))) result 1 7 }
    {
        let idle = self.add_condition(Condition::Not(c));
        let wait = self.add_formula(Formula::Strong(idle));
        let tick = self.add_formula(Formula::Strong(c));
        let inner = self.on_tick(wait, tick, g);
        let step = self.add_formula(Formula::Next(inner));
        self.on_tick(wait, tick, step)
    }
}
