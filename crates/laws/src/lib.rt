// The laws of a sharing book's day. Each function carries one in its contract; none computes anything.
#![tactic(auto)]

ghost use Rattle.model.specs.Trading.{rule};
ghost use Rattle.laws.specs.Law.{LawOfEveryDay, RecordsLaw};
ghost use Rattle.laws.specs.Telling.{Telling};

use sharing::SharingRule;

// The whole law, for every rule M of makers and F of firms: after every accepted Make, in all states of the two rules, for every
// row of calls, what stands, the customer records, the accounts and priority.
pub fn day_laws<M: SharingRule, F: SharingRule>()
    ensures { LawOfEveryDay (rule M.SharingRule.shares M.SharingRule.next) (rule F.SharingRule.shares F.SharingRule.next) }
{}

// The customer records of two books on one side, the first under the rules M and F, the second under N and G.
pub fn records_law<M: SharingRule, F: SharingRule, N: SharingRule, G: SharingRule>()
    ensures { RecordsLaw (rule M.SharingRule.shares M.SharingRule.next) (rule F.SharingRule.shares F.SharingRule.next) (rule N.SharingRule.shares N.SharingRule.next) (rule G.SharingRule.shares G.SharingRule.next) }
{}

// Which days are possible, and which customer parts they tell. The number is one that the sample day's Tally could not answer,
// under any rules.
pub fn impossible_answer() -> u32
    ensures { Telling result }
{
    13
}
