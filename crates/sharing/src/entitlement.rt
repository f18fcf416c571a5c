// The draw rule before leftovers: who is entitled, to what, and the shares that follow.
ghost use Rattle.std.specs.Prelude.{◌≡◌, ◌<◌, false, length, MatchOption};
ghost use Rattle.terms.specs.Numbers.{sum as added_up};
ghost use Rattle.sharing.specs.Asking.{inputs_of};
ghost use Rattle.sharing.specs.Draw.{base_shares, entitled, entitlement as entitled_to, percentage as percentage_of, prevails, stands};
ghost use Rattle.sharing.specs.Placed.{EntitledAt, IsPlace, PrevailsAt, StandsAt};

use crate::asked::Asked;
use crate::by_size::{part, plain_shares};
use terms::place;

// The percentage to which a party at the price is entitled, by the number of its rivals, the other makers there.
fn percentage(rivals: usize, arriving: u32, directed: bool, specialist: bool) -> u32
    ensures { result ≡ percentage_of rivals arriving directed specialist }
{
    match rivals {
        0 => 0,
        _ if arriving <= 5 => 0,
        1 if specialist => 60,
        2 if specialist => 40,
        _ if directed => 40,
        _ if specialist => 30,
        _ => 0,
    }
}

// Where a party stands; 0 is no party.
fn standing_place(party: u32, holders: &[u32]) -> Option<usize>
    ensures { MatchOption result (stands party holders.now ≡ false) (λ at. StandsAt at party holders.now) }
{
    if party == 0 {
        return None;
    }
    place(holders, party)
}

// Where the party stands that may be entitled: the directed one, or else the specialist.
fn entitled_place(specialist: u32, asked: Asked<'_>) -> Option<usize>
    ensures { MatchOption result (entitled specialist (inputs_of asked.entry) ≡ 0) (λ at. EntitledAt at specialist (inputs_of asked.entry)) }
{
    standing_place(asked.directed, asked.holders).or(standing_place(specialist, asked.holders))
}

// What the party at a place is entitled to: its percentage of the number, cut to its size.
fn entitlement_at(at: usize, specialist: u32, asked: Asked<'_>) -> u32
    requires { IsPlace at (entitled specialist (inputs_of asked)) asked.holders.now }
    ensures { result ≡ entitled_to specialist (entitled specialist (inputs_of asked.entry)) (inputs_of asked.entry) }
{
    let holder = asked.holders[at];
    let percent = percentage(
        asked.holders.len() - 1,
        asked.arriving,
        holder == asked.directed,
        holder == specialist,
    );
    asked.sizes[at].min(part(asked.number, percent, 100))
}

// An entitlement: where its holder stands, and what it takes.
#[derive(Clone, Copy)]
struct Entitlement {
    at: usize,
    takes: u32,
}

// The entitlement that prevails, if one does: it is above the plain share of its holder.
fn prevailing(specialist: u32, total: u32, asked: Asked<'_>) -> Option<Entitlement>
    requires { (total ≡ added_up asked.sizes.now) × (asked.number < total) }
    ensures { MatchOption result (prevails specialist (inputs_of asked.entry) ≡ false) (λ e. PrevailsAt e.at e.takes specialist (inputs_of asked.entry)) }
{
    let at = entitled_place(specialist, asked)?;
    let takes = entitlement_at(at, specialist, asked);
    let plain = part(asked.sizes[at], asked.number, total);
    if takes > plain {
        Some(Entitlement { at, takes })
    } else {
        None
    }
}

// Writes the shares before leftovers: with the entitlement first where one prevails.
pub(crate) fn share_base(specialist: u32, total: u32, asked: Asked<'_>, out: &mut [u32])
    requires room { length out.old ≡ length asked.sizes.now }
    requires short { (total ≡ added_up asked.sizes.now) × (asked.number < total) }
    ensures { out.new ≡ base_shares specialist (inputs_of asked.entry) }
{
    match prevailing(specialist, total, asked) {
        Some(entitlement) => {
            let others = total - asked.sizes[entitlement.at];
            plain_shares(asked.number - entitlement.takes, others, asked.sizes, out);
            out[entitlement.at] = entitlement.takes;
        }
        None => plain_shares(asked.number, total, asked.sizes, out),
    }
}
