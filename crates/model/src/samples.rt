// Two days, evaluated by the model.
ghost use Rattle.model.specs.Busy.{BusyDay};
ghost use Rattle.model.specs.Sample.{SampleDay};

// The sample day: every answer, the three blocks and the refusal. The number is what its last call, a Tally of the makers, answers.
pub fn sample_day() -> u32
    ensures { SampleDay result }
{
    12
}

// A busier day, over two prices. The number is what its first Trade fills.
pub fn busy_day() -> u32
    ensures { BusyDay result }
{
    60
}
