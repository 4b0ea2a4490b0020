#![tactic(auto)]

ghost use Rattle.std.specs.Prelude.{◌≡◌};
ghost use Rattle.practice.specs.Practice.{practice_cells, PracticeFacts, RuleFacts};
ghost use Rattle.practice.specs.Run.{PracticeRun};

// The cells of the practice catalogue.
pub fn practice_cells() -> [u16; 38]
    ensures value { result ≡ practice_cells }
    ensures facts { PracticeFacts }
    ensures rules { RuleFacts }
    ensures run { PracticeRun }
{
    [
        7, 3, 258, 258, 2, 4, 0, 0, 2, 0, 1, 3, 1, 1, 2, 1, 2, 2, 1, 2, 1, 0, 1, 1, 2, 2, 1, 1, 1,
        2, 0, 0, 2, 1, 2, 1, 1, 2,
    ]
}
