// The law of the block format, for every row of numbers, of whatever length.
ghost use Rattle.std.specs.Prelude.{ℕ, List};
ghost use Rattle.blocks.specs.Laws.{ReadsBack, ReadsOnlyBlocks};
ghost use Rattle.blocks.specs.Reading.{reads};

// A row reads as some fills exactly where these fit a layout and the row is their block.
pub fn block_laws()
    ensures back { (b : List ℕ) → ReadsBack b (reads b) }
    ensures only { (b : List ℕ) → ReadsOnlyBlocks b (reads b) }
{}
