//! The laws on pairs and names, as contracts.

ghost use Rattle.flow_parts.specs.Parts.{PartsAreSites, PartPairsAreListed, CoveredPartsAreListed, CoveredPartPUsesAreListed};
ghost use Rattle.flow_parts.specs.Strong.{PartNamesAreStrong};

/// Of an orderly program in which notes have the types of the rows, names are their rows' own, no structure lies in itself, no array is without
/// elements, and parameters are scalars: the sites that are a local variable, or an element or a field in one, structures that are copied among
/// them, and the parameters, are such as may be told of; so each pair of them of one variable that the events of a run make is listed, and each
/// pair, and the pair of each p-use, that they cover.
pub fn part_pairs_are_listed()
    ensures sites { PartsAreSites }
    ensures pairs { PartPairsAreListed }
    ensures covered { CoveredPartsAreListed }
    ensures p_uses { CoveredPartPUsesAreListed }
{}

/// Where the fields of a structure have different names, without `.` and `[`: a leaf name without `[]` is that of one cell alone.
#[tactic(auto, using(crate::proofs::Strong::part_names_are_strong))]
pub fn part_names_are_strong()
    ensures { PartNamesAreStrong }
{}
