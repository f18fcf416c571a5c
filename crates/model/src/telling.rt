// That the definitions tell right from wrong.
ghost use Rattle.model.specs.Telling.{Telling};

// Days that are told apart, and days that are not. The number is an answer that the sample day's Tally does not give.
pub fn wrong_answer() -> u32
    ensures { Telling result }
{
    13
}
