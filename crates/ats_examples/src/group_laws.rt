//! Frames that come to one group, and what it says of them.

ghost use Rattle.ats_examples.specs.Groups.{BucketEmptied, LateIsSoon, NumbersAreOwn, OrderCounts, RoundedUp};

/// The laws at two lists of frames: a bucket that is just emptied, and a rate at which eligibility
/// times are rounded up. Frames that were a picosecond earlier would not conform. And two frames
/// that come in another order than they were eligible at the hop before, for which shaping is not
/// free. And a late frame that is told the last time that it may be, and by a burst that covers no
/// frame a later one.
pub fn worked_rows()
    ensures bucket_emptied { BucketEmptied }
    ensures rounded_up { RoundedUp }
    ensures order_counts { OrderCounts }
    ensures late_is_soon { LateIsSoon }
{}

/// Two members under other numbers, and under one.
pub fn numbers_are_own()
    ensures { NumbersAreOwn }
{}
