//! Laws of the definitions of this crate: functions that do nothing but call on laws, whose contract is the law.
ghost use Rattle.bim_points.specs.Laws.{SoundIsUnbroken, SoundIsVerified, EmptyStacksAreTold, PlainIsSound, PointsKeepRules, FlowingIsPlain};

use bim_verify::laws::rules_are_one;

/// Code whose stacks are known at each instruction, with points where jumps lead, breaks no rule on stacks.
pub fn sound_code_is_verified()
    ensures unbroken { SoundIsUnbroken }
    ensures verified { SoundIsVerified }
    ensures empty { EmptyStacksAreTold }
    ensures plain { PlainIsSound }
    ensures rules { PointsKeepRules }
    ensures flowing { FlowingIsPlain }
{
    rules_are_one();
}
