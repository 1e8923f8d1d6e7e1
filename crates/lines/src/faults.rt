// Why a line is refused.
ghost use Rattle.std.specs.Prelude.{◌≡◌, Some, None};
ghost use Rattle.std.specs.Result.{MatchResult};
ghost use Rattle.model.specs.Conditions.{rule_number};
ghost use Rattle.lines.specs.declared.faults.Rule.TheVariants.{Grammar};
ghost use Rattle.lines.specs.Faults.{rule_of, fault_of};

use reader::GrammarFault;
use std::error::Error;
use std::fmt;

// What a line can break, in the order in which it is tried.
#[derive(Clone, Copy, Debug, PartialEq, Eq)]
pub enum Rule {
    Grammar,
    Limits,
    Access,
    Evenness,
    Extents,
    LoopOrder,
    ArgumentOrder,
}

impl From<Rule> for u8 {
    ghost from_gives = { λ rule n. n ≡ rule_number (rule_of rule) };

    fn from(rule: Rule) -> u8 {
        match rule {
            Rule::Grammar => 6,
            Rule::Limits => 7,
            Rule::Access => 8,
            Rule::Evenness => 9,
            Rule::Extents => 10,
            Rule::LoopOrder => 11,
            Rule::ArgumentOrder => 12,
        }
    }
}

impl fmt::Display for Rule {
    fn fmt<W: fmt::Write>(&self, f: &mut fmt::Formatter<W>) -> fmt::Result {
        f.write_str(match self {
            Rule::Grammar => "the grammar",
            Rule::Limits => "the limits",
            Rule::Access => "the accesses",
            Rule::Evenness => "the variables of terms",
            Rule::Extents => "the extents",
            Rule::LoopOrder => "the loop order",
            Rule::ArgumentOrder => "the order of arguments",
        })
    }
}

impl Rule {
    pub fn number(self) -> u8
        ensures { result ≡ rule_number (rule_of self) }
    {
        u8::from(self)
    }

    // A fault where there is a place at which the rule is broken.
    pub(crate) fn holds(self, broken: Option<usize>) -> Result<(), LineFault>
        ensures { MatchResult result (λ _. broken ≡ None) (λ f. (f.rule ≡ self) × (broken ≡ Some f.place)) }
    {
        match broken {
            Some(place) => Err(LineFault { rule: self, place }),
            None => Ok(()),
        }
    }
}

// The rule that a line breaks, and the place, that of a byte or the length.
#[derive(Clone, Copy, Debug, PartialEq, Eq)]
pub struct LineFault {
    pub rule: Rule,
    pub place: usize,
}

impl fmt::Display for LineFault {
    fn fmt<W: fmt::Write>(&self, f: &mut fmt::Formatter<W>) -> fmt::Result {
        write!(f, "{} broken at {}", self.rule, self.place)
    }
}

impl Error for LineFault {}

impl From<GrammarFault> for LineFault {
    ghost from_gives = { λ e f. f ≡ record { rule = Grammar; place = e.place } };

    fn from(fault: GrammarFault) -> LineFault {
        LineFault {
            rule: Rule::Grammar,
            place: fault.place,
        }
    }
}
