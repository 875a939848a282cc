//! Laws on the spelling of parcels. Each function does nothing: its contract is the law.
ghost use Rattle.parcel_bytes.specs.Faults.{SpellsOneParcel, FaultsSpellNoParcel, ParcelFaultsAreOne, SpellsParcelOrFails};

/// No bytes spell two parcels.
pub fn spells_one_parcel()
    ensures law { SpellsOneParcel }
{}

/// Bytes with a fault spell no parcel.
pub fn faults_spell_no_parcel()
    ensures law { FaultsSpellNoParcel }
{}

/// Bytes have one fault at most, at one place.
pub fn parcel_faults_are_one()
    ensures law { ParcelFaultsAreOne }
{}

/// Bytes spell a parcel, or they have a fault.
pub fn bytes_spell_a_parcel_or_fail()
    ensures law { SpellsParcelOrFails }
{}
