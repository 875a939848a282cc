//! Matrices and their stacks.
ghost use Rattle.std.specs.Prelude.{◌≡◌, [], ◌∷◌, negsuc, pos, Some};
ghost use Rattle.rc_base.specs.Contexts.Context.{identity};
ghost use Rattle.rc_base.specs.declared.state.Fault.TheVariants.{StackUnderflow};
ghost use Rattle.worked_examples.specs.Scenes.{fault_in, one, reached};
ghost use Rattle.worked_examples.specs.States.{affine, first_entry, half, top_after, popped_in_projection, pushed_and_popped, two};

/// The top is top_after from the right, so that the last matrix meets a vertex first: 2 * (x + 1) = 2 * x + 2, and 2 * x + 1 the other way.
pub fn the_last_matrix_is_applied_first()
    ensures scaled { top_after (affine two (pos 0)) (affine one one) ≡ affine two two }
    ensures moved { top_after (affine one one) (affine two (pos 0)) ≡ affine two one }
{}

/// 1 * 32768 / 65536 is rounded down to 0, and -1 * 32768 / 65536 to -1.
pub fn products_are_rounded_down()
    ensures above { top_after (first_entry (pos 1)) (first_entry half) ≡ first_entry (pos 0) }
    ensures below { top_after (first_entry (negsuc 0)) (first_entry half) ≡ first_entry (negsuc 0) }
{}

/// PushMatrix keeps the top below itself, and PopMatrix brings it back.
pub fn a_pushed_matrix_comes_back()
    ensures pushed { (reached pushed_and_popped 1).modelviews ≡ identity ∷ [] }
    ensures loaded { (reached pushed_and_popped 2).state.modelview ≡ affine two one }
    ensures popped { (reached pushed_and_popped 3).state.modelview ≡ identity }
    ensures empty { (reached pushed_and_popped 3).modelviews ≡ [] }
{}

/// The matrix mode PROJECTION means the other stack, below which nothing was pushed.
pub fn the_stacks_are_apart()
    ensures underflow { fault_in popped_in_projection 2 ≡ Some StackUnderflow }
    ensures projection { (reached popped_in_projection 4).state.projection ≡ affine two one }
    ensures modelview { (reached popped_in_projection 4).state.modelview ≡ identity }
{}
