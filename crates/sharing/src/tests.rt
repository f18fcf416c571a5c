// Examples: a day of the draw rule.
ghost use Rattle.std.specs.Prelude.{◌≤◌};

use crate::asked::Asked;
use crate::draw_rule::DrawRule;
use crate::rule::SharingRule;

// Three makers with 4 contracts each share a number.
fn three_makers(rule: &mut DrawRule, number: u32) -> [u32; 3]
    requires { number ≤ 999999 }
{
    let mut shares = [0; 3];
    let asked = Asked {
        holders: &[1, 2, 3],
        sizes: &[4, 4, 4],
        arriving: number,
        number,
        directed: 0,
    };
    rule.share(asked, &mut shares);
    shares
}

// Two leftovers go to the first two of the draw; the next one goes to the third, though the first stands there too.
#[test]
fn leftovers_by_turn(rt: HostRuntime) {
    let mut rule = DrawRule::new(&[1, 2, 3], 0);
    assert_eq!(rt; three_makers(&mut rule, 8), [3, 3, 2]);
    assert_eq!(rt; three_makers(&mut rule, 4), [1, 1, 2]);
    assert_eq!(rt; rule.turn(), Some(1));
}

// A roster with a repeat is refused, and so is a specialist that is not drawn: nobody has a turn.
#[test]
fn nobody_drawn(rt: HostRuntime) {
    assert_eq!(rt; DrawRule::new(&[7, 8, 7], 0).turn(), None);
    assert_eq!(rt; DrawRule::new(&[7, 8], 9).turn(), None);
    assert_eq!(rt; DrawRule::new(&[7, 8], 8).turn(), Some(7));
}
