//! Laws of what is printed, and of how that ends. The contract of a function is the law; its body
//! does nothing, or compares.

ghost use Rattle.std.specs.Prelude.{◌≡◌, ◌↔◌, ℕ, List, Option, IsTrue, codes};
ghost use Rattle.resolvers.specs.Greatest.{by_body, by_stamp, first_greatest};
ghost use Rattle.sealed_frames.specs.declared.key.Keys.{Keys};
ghost use Rattle.plumctl_core.specs.Output.{IsFrameOutput};
ghost use Rattle.plumctl_core.specs.Scenario.{NamesChoice};

use crate::frame::Ended;

/// An input has one output, under the same keys or without keys.
pub fn one_output_for_an_input()
    ensures some { (keys : Option Keys) (input : List ℕ)
        → (output : List ℕ) × IsFrameOutput keys input output }
    ensures one { (keys : Option Keys) (input output other : List ℕ)
        → IsFrameOutput keys input output → IsFrameOutput keys input other → output ≡ other }
{}

/// Ends are equal exactly if they are the same.
pub fn equal_ends_are_the_same(one: Ended, other: Ended) -> bool
    ensures { IsTrue result ↔ (one ≡ other) }
{
    one == other
}

/// Each word that a command may name for a resolver names the choice that it says: `lww` the last
/// write, `largest` the largest body.
pub fn each_word_names_its_choice()
    ensures lww { NamesChoice (codes "lww") (first_greatest by_stamp) }
    ensures largest { NamesChoice (codes "largest") (first_greatest by_body) }
{}
