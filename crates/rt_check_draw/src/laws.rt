//! What the picture keeps of a tree, as laws of the definitions that the contracts cite. Each function does
//! nothing: its contract is the law.

ghost use Rattle.rt_check_draw.specs.Laws.{ScaleIsMonotone, SidesKeepDirection, ScaleStaysInPlot, RangeCoversCells, BoxesStayInFrame, EachLevelIsDrawnOnce, PictureIsWellFormed};

/// Of two coordinates the greater has no lower place on its axis.
pub fn scale_is_monotone()
    ensures { ScaleIsMonotone }
{}

/// Of two boxes, the one whose lower end is greater begins no further left. The one whose upper end is greater reaches no
/// less high.
pub fn sides_keep_direction()
    ensures { SidesKeepDirection }
{}

/// Each coordinate stands in the plot.
pub fn scale_stays_in_plot()
    ensures { ScaleStaysInPlot }
{}

/// On each axis the range that is drawn has both ends of each cell.
pub fn range_covers_cells()
    ensures { RangeCoversCells }
{}

/// The box of each cell lies in the frame round the plot.
pub fn boxes_stay_in_frame()
    ensures { BoxesStayInFrame }
{}

/// The cells of each node are drawn once if the node's level is to be drawn, and else not at all.
pub fn each_level_is_drawn_once()
    ensures { EachLevelIsDrawnOnce }
{}

/// The text of each picture is well-formed XML: one element, `svg`.
pub fn picture_is_well_formed()
    ensures { PictureIsWellFormed }
{}
