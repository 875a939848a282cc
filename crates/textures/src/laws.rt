//! Laws of shared textures. Each function's contract is a law, and its body is empty: there is nothing to compute.
ghost use Rattle.textures.specs.Stores.{BlankTexturesHaveZeros, WrittenPartsAreStored};

/// A set of shared textures that is made by `SharedSet::new` and written by `SharedSet::write` has the texels that the definition of an
/// order of commands keeps.
pub fn sets_have_stored_texels()
    ensures blank { BlankTexturesHaveZeros }
    ensures written { WrittenPartsAreStored }
{}
