//! Stacks of matrices.
ghost use Rattle.std.specs.Prelude.{◌≡◌, ◌<◌, vec_len};
ghost use Rattle.rc_base.specs.Contexts.Issue.{last_of, front_of};

use rc_base::command::Mat4;

/// Takes the last matrix of a list that isn't empty.
pub fn pop_last(matrices: &mut Vec<Mat4>) -> Mat4
    requires { 0 < vec_len matrices.old }
    ensures last { result ≡ last_of matrices.old.items }
    ensures front { matrices.new.items ≡ front_of matrices.old.items }
{
    matrices.pop().unwrap()
}
