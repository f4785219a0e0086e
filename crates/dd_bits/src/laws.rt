//! What the canonical list says of a set, and how tiles nest: laws, with nothing to run.

ghost use Rattle.dd_bits.specs.CanonicalList.{ListCovers, ListInside, ListHas, ListSorted, ListTells};
ghost use Rattle.dd_bits.specs.Tiles.{TilesNest};

/// Each point of the set lies in exactly one rectangle of its list, and no other point lies in any.
pub fn list_covers()
    ensures { ListCovers }
{}

/// Each rectangle of the list lies inside the surface.
pub fn list_inside()
    ensures { ListInside }
{}

/// A rectangle is in the list exactly where it is a maximal run of columns of a whole band of equal
/// rows.
pub fn list_has()
    ensures { ListHas }
{}

/// The list is sorted by top, then left.
pub fn list_sorted()
    ensures { ListSorted }
{}

/// Two sets of one surface are equal exactly where their lists are.
pub fn list_tells()
    ensures { ListTells }
{}

/// What is rounded to tiles, and then to tiles that are made of whole ones, is rounded to the
/// greater ones.
pub fn tiles_nest()
    ensures { TilesNest }
{}
