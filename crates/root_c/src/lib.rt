// The square root under C names, for `tools/root-hardware`, which compares the compiled root with the processor's own. It is not document
// 01's place "as C functions on numbers and byte slices", which comes with its later request.
#![tactic(auto)]

ghost use Rattle.std.specs.Prelude.{◌≡◌};
ghost use Rattle.leaves.specs.Root.{root_s};

// C: double fodder_sqrt(double)
#[unsafe(no_mangle)]
pub extern "C" fn fodder_sqrt(x: f64) -> f64
    ensures { result ≡ root_s x }
{
    leaves::root::sqrt(x)
}
