// The balanced merge of a run of nodes.
#![tactic(auto)]

ghost use Rattle.std.specs.Prelude.{List, ℤ};
ghost use Rattle.rules.specs.Totalizer.{merge};
ghost use Rattle.records.specs.Carries.{st, at, Makes, on_records};
ghost use Rattle.records_append.specs.Made.{made_marks, made_node};

use records::Marks;
use records_append::Made;

// The node that stands for the members: one member is itself, more are split into the first half, rounded down, and the
// others, left merged first, and joined. A turn a member; the depth grows with the logarithm of their number.
pub fn merge(s: &mut [u32], members: &[u32], m: Marks) -> Option<Made>
    ensures { (c : List ℤ) → Makes (st s.old c (at m)) (st s.new c (made_marks result)) (made_node result) (on_records (λ rs. merge rs members.now)) }
{
    match members {
        [] => Some(Made { node: 0, marks: m }),
        &[node] => Some(Made { node, marks: m }),
        _ => {
            let (first, others) = members.split_at(members.len() / 2);
            let a = merge(s, first, m)?;
            let b = merge(s, others, a.marks)?;
            records_append::join(s, b.marks, false, a.node, b.node)
        }
    }
}
