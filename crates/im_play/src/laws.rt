ghost use Rattle.im_play.specs.Leaving.{NobodyLeaves, NobodyLeavesBehind, NobodyLeavesDropped};

/// A law, for contracts alone: no line of a session or of the background makes anybody leave, whatever others do meanwhile and
/// wherever memory runs out, and neither does the dropping of held builds. So nobody has left behind lines that were played.
pub fn nobody_leaves()
    ensures sessions { NobodyLeaves }
    ensures background { NobodyLeavesBehind }
    ensures dropped { NobodyLeavesDropped }
{}
