// The laws of a kept list, for every kind of record and every order of rank.
ghost use Rattle.kept.specs.Inserting.{InsertionIsOrderly};

// Where ranks are total and carry along a chain, insertion keeps rank, and records of one rank stand as they arrived.
pub fn insertion_law<R>()
    ensures { InsertionIsOrderly R }
{}
