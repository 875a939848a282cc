//! Which commands are refused, and why.
ghost use Rattle.std.specs.Prelude.{◌≡◌, [], ◌∷◌, negsuc, pos, replicate};
ghost use Rattle.worked_examples.specs.Scenes.{at, fault_in, image, one, part, viewport, wide};
ghost use Rattle.worked_examples.specs.States.{top_after};
ghost use Rattle.rc_base.specs.declared.command.Command.TheVariants as cmd;
ghost use Rattle.rc_base.specs.declared.state.Fault.TheVariants.{InvalidEnum, InvalidOperation, InvalidValue, StackOverflow, StackUnderflow};

/// A Begin inside a block is refused for its place, whatever its mode is; outside one a mode of 3 isn't a code.
pub fn place_is_judged_before_codes()
    ensures inside { fault_in (cmd.Begin 0 ∷ cmd.Begin 3 ∷ []) 1 ≡ Some InvalidOperation }
    ensures outside { fault_in (cmd.Begin 3 ∷ []) 0 ≡ Some InvalidEnum }
    ensures vertex_outside { fault_in (at one one one ∷ []) 0 ≡ Some InvalidOperation }
{}

/// Texture kind 2 isn't a code, and private name 65 isn't a name.
pub fn codes_are_judged_before_values()
    ensures kind { fault_in (cmd.BindTexture 2 65 ∷ []) 0 ≡ Some InvalidEnum }
    ensures name { fault_in (cmd.BindTexture 0 65 ∷ []) 0 ≡ Some InvalidValue }
    ensures fine { fault_in (cmd.BindTexture 0 64 ∷ []) 0 ≡ None }
    ensures shared { fault_in (cmd.BindTexture 1 1 ∷ []) 0 ≡ Some InvalidValue }
{}

/// 31 PushMatrix are accepted and the 32nd overflows; PopMatrix at one matrix underflows.
pub fn stacks_hold_32_matrices()
    ensures last { fault_in (replicate 32 cmd.PushMatrix) 30 ≡ None }
    ensures overflow { fault_in (replicate 32 cmd.PushMatrix) 31 ≡ Some StackOverflow }
    ensures underflow { fault_in (cmd.PopMatrix ∷ []) 0 ≡ Some StackUnderflow }
{}

/// A matrix whose first entry is 2147483647 times itself has an entry outside 32 bits. The top stays as it was.
pub fn a_product_out_of_range_is_refused()
    ensures load { fault_in (cmd.LoadMatrix wide ∷ cmd.MultMatrix wide ∷ []) 0 ≡ None }
    ensures product { fault_in (cmd.LoadMatrix wide ∷ cmd.MultMatrix wide ∷ []) 1 ≡ Some InvalidValue }
    ensures kept { top_after wide wide ≡ wide }
{}

/// A TexPart of a texture without an image is an invalid operation, and one beyond the image's sides has an invalid value. A name outside
/// 1 to 64 is judged first.
pub fn a_part_lies_inside_its_image()
    ensures name { fault_in (part 65 0 0 1 1 ∷ []) 0 ≡ Some InvalidValue }
    ensures no_image { fault_in (part 2 0 0 1 1 ∷ []) 0 ≡ Some InvalidOperation }
    ensures outside { fault_in (image 1 2 2 ∷ part 1 1 0 2 1 ∷ []) 1 ≡ Some InvalidValue }
    ensures inside { fault_in (image 1 2 2 ∷ part 1 1 1 1 1 ∷ []) 1 ≡ None }
{}

/// A Clear mask has two bits. A viewport's sides are at most 2048 and its corner has 16 bits.
pub fn clears_and_viewports_have_ranges()
    ensures mask { fault_in (cmd.Clear 4 ∷ []) 0 ≡ Some InvalidValue }
    ensures both { fault_in (cmd.Clear 3 ∷ []) 0 ≡ None }
    ensures wide { fault_in (viewport (pos 0) (pos 0) 2049 1 ∷ []) 0 ≡ Some InvalidValue }
    ensures low { fault_in (viewport (negsuc 32767) (pos 32767) 2048 0 ∷ []) 0 ≡ None }
    ensures lower { fault_in (viewport (negsuc 32768) (pos 0) 1 1 ∷ []) 0 ≡ Some InvalidValue }
{}
