// What responds to the lines of an input.
ghost use Rattle.std.specs.Prelude.{ℕ, List, [], ◌∷◌, ◌++◌, Option, OnOk, string_bytes};
ghost use Rattle.machine_model.specs.declared.call.Call.{Call};
ghost use Rattle.heap_program.specs.Responses.{HasResponded};

use kernel_heap::Call;
use std::alloc::AllocError;

/// Something that responds to the items of an input, one after another. An item is what a line asks for: a call, or none
/// if the line is bad.
pub trait Respond {
    /// From one to another it responded to these items, in order, with this text.
    ghost responds: { Self → List (Option Call) → List ℕ → Self → Type 0 };

    /// Responds to an item, with a text at the end of the output.
    fn respond(&mut self, item: Option<Call>, output: &mut String) -> Result<(), AllocError>
        ensures { OnOk result (HasResponded responds self.old (item ∷ []) (string_bytes output.old) (string_bytes output.new) self.new) };

    /// No item needs no text.
    ghost responds_none: { (x : Self) → responds x [] [] x };

    /// Some items, and then more.
    ghost responds_on: { (x y z : Self) (a b : List (Option Call)) (t u : List ℕ) →
        responds x a t y → responds y b u z → responds x (a ++ b) (t ++ u) z };
}
