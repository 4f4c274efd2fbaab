// Components in a run.
ghost use Rattle.std.specs.Prelude.{◌≡◌, ◌+◌, ◌*◌, ◌≤◌, length};
ghost use Rattle.layout.specs.Places.{component_width};
ghost use Rattle.layout.specs.Components.{component_at};

use crate::{COMPONENT_WIDTH, Component};
use units::{Money, Rate};

// The i-th component of a run.
#[tactic(auto, using(crate::proofs::Account::part_at), unfolding(crate::specs::Components::component_at))]
pub fn component_at(run: &[u64], i: usize) -> Component
    requires { component_width * i + component_width ≤ length run.now }
    ensures { result ≡ component_at run.now i }
{
    let (components, _) = run.as_chunks::<COMPONENT_WIDTH>();
    let [code, quantity, flag, premium, discount, amount] = components[i];
    Component {
        code,
        quantity,
        flag,
        premium: Rate::new(premium),
        discount: Rate::new(discount),
        amount: Money::new(amount),
    }
}
