//! What is proved of the definitions themselves.

ghost use Rattle.ats_settings_law.specs.Laws.{EachHopIsNamed, EachSettingIsTrue, GroupsJudgeAlike, SettingsAreOne};
ghost use Rattle.ats_settings_law.specs.Laws.{SizesPassAlike};

/// A law: each network has just one list of settings.
pub fn settings_are_one()
    ensures { SettingsAreOne }
{}

/// A law: wherever frames of a stream or flow go on by a port from the one before on their path, one of
/// the settings says so: no hop at which they leave a bridge is left out.
pub fn each_hop_is_named()
    ensures { EachHopIsNamed }
{}

/// A law: each setting of a network tells what is so in it: by which port its stream or flow goes on
/// from which, to which bridge that one leads, its classes there, its greatest size, and what its scheduler
/// has there, which a stream has and a flow has not.
pub fn each_setting_is_true()
    ensures { EachSettingIsTrue }
{}

/// A law: networks of one topology that have the same settings judge alike every list of frames that
/// come to a group of a bridge, each of a stream that the settings name there, and none shorter than
/// the networks declare. Of the least size no bridge is told.
pub fn groups_judge_alike()
    ensures { GroupsJudgeAlike }
{}

/// A law: they let pass alike, by its size, each frame of a stream or flow that the settings name, if
/// it is not shorter than is declared.
pub fn sizes_pass_alike()
    ensures { SizesPassAlike }
{}
