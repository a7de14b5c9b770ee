//! What is proved of the definitions themselves, for all texts.

ghost use Rattle.ats_shape.specs.FaultLaw.{EachFaultIsTheFirst, EachShapeIsFaultless};

/// A text is refused with a fault exactly where that fault stands in the line it names, judged by
/// the lines before it, and no line before it has one; or where no line counts, with the number
/// after the last line.
pub fn each_fault_is_the_first()
    ensures { EachFaultIsTheFirst }
{}

/// Where a text declares a shape, no line has a fault, and the shape's names and arrivals are those that stand on its
/// stream lines and frame lines, in order.
pub fn each_shape_is_faultless()
    ensures { EachShapeIsFaultless }
{}
