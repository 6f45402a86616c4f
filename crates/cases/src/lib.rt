// Worked cases of boards and tables, computed from the definitions.
#![tactic(auto)]

ghost use Rattle.std.specs.Prelude.{◌≡◌, length};
ghost use Rattle.cases.specs.Cases.{cases as worked, CasesHold};

/// How many worked cases there are, all of which hold of the definitions.
pub fn worked_cases() -> usize
    ensures count { result ≡ length worked }
    ensures hold { CasesHold }
{
    12
}
