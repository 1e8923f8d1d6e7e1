// The conditions of a line, each by its first place at fault, and the line read as a whole.
ghost use Rattle.std.specs.Prelude.{IfOk, Some, None, take};
ghost use Rattle.std.specs.Result.{MatchResult};
ghost use Rattle.model.specs.Conditions.{over_limits, wrong_access, uneven, other_extent, wrong_order, out_of_order, judged, Refuses};
ghost use Rattle.reader.specs.Order.{PartsFirst};
ghost use Rattle.lines.specs.Given.{slots_of};
ghost use Rattle.lines.specs.Faults.{fault_of};
ghost use Rattle.lines.specs.Describes.{Described};
ghost use Rattle.lines.specs.Judging.{Answers, ReadsLine};
ghost use Rattle.lines.specs.Rooted.{Rooted};

use crate::accesses::ninth;
use crate::evenness::Written;
use crate::extents::first_differing;
use crate::faults::{LineFault, Rule};
use crate::given::Slots;
use crate::limits::{fifth_bracket, fifth_variable, fourth_argument, left_of};
use crate::line::{Syntax, describe};
use crate::misfits::first_misfit;
use crate::orders::{first_unordered, order_fault};
use crate::sets::VarSet;
use reader::parse;

impl Syntax {
    fn over_limits(&self, text: &[u8]) -> Option<usize>
        ensures { Answers text.now self.now over_limits result }
    {
        let accesses = self.accesses.as_slice();
        let argument = fourth_argument(text, self.left, accesses);
        let bracket = fifth_bracket(&self.parsed.arena, self.parsed.root, 0);
        left_of(
            ninth(accesses),
            left_of(fifth_variable(text), left_of(argument, bracket)),
        )
    }

    fn wrong_access(&self, text: &[u8], slots: &Slots) -> Option<usize>
        ensures { Answers text.now self.now (wrong_access (slots_of slots.now)) result }
    {
        if self.left.repeats_one(text) {
            return Some(0);
        }
        first_misfit(text, slots, self.accesses.as_slice())
    }

    fn unevenness(&self, text: &[u8]) -> Option<usize>
        ensures { Answers text.now self.now uneven result }
    {
        let mut left = VarSet::new();
        left.add(text, self.left);
        let tree = Written {
            text,
            arena: &self.parsed.arena,
        };
        let sum = tree.uneven_sum(self.parsed.root, false);
        let term = tree.lacking_term(self.parsed.root, self.parsed.body, &left);
        left_of(sum, term)
    }

    fn other_extent(&self, text: &[u8], slots: &Slots) -> Option<usize>
        ensures { Answers text.now self.now (other_extent (slots_of slots.now)) result }
    {
        first_differing(text, slots, self.accesses.as_slice())
    }

    fn wrong_order(&self, text: &[u8]) -> Option<usize>
        ensures { Answers text.now self.now wrong_order result }
    {
        let tree = Written {
            text,
            arena: &self.parsed.arena,
        };
        let used = tree.vars(self.parsed.root);
        order_fault(text, self.order, &used)
    }

    fn out_of_order(&self, text: &[u8]) -> Option<usize>
        ensures { Answers text.now self.now out_of_order result }
    {
        first_unordered(text, self.order, self.accesses.as_slice())
    }

    // The rules that a grammatical line can break, tried in their order over the whole line.
    fn judge(&self, text: &[u8], slots: &Slots) -> Result<(), LineFault>
        ensures { MatchResult result (λ _. Answers text.now self.now (judged (slots_of slots.now)) None) (λ f. Answers text.now self.now (judged (slots_of slots.now)) (Some (fault_of f))) }
    {
        Rule::Limits.holds(self.over_limits(text))?;
        Rule::Access.holds(self.wrong_access(text, slots))?;
        Rule::Evenness.holds(self.unevenness(text))?;
        Rule::Extents.holds(self.other_extent(text, slots))?;
        Rule::LoopOrder.holds(self.wrong_order(text))?;
        Rule::ArgumentOrder.holds(self.out_of_order(text))
    }
}

// The line that a text is, or the rule that it breaks first and the place.
pub fn read_line(text: &[u8], slots: &Slots) -> Result<Syntax, LineFault>
    ensures read { MatchResult result (ReadsLine (slots_of slots.now) text.now) (λ f. Refuses (slots_of slots.now) text.now (fault_of f)) }
    ensures rooted { IfOk result Rooted }
    ensures ordered { IfOk result (λ x. PartsFirst (take x.parsed.arena.len x.parsed.arena.nodes)) }
{
    let line = match parse(text) {
        Ok(parsed) => describe(text, &parsed),
        Err(fault) => return Err(LineFault::from(fault)),
    };
    line.judge(text, slots)?;
    Ok(line)
}
