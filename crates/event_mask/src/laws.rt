ghost use Rattle.event_mask.specs.Laws.{SettingsAsSet, HookGoesOn};

/// Does nothing, and is there for its contract: the laws of settings and of the hook.
pub fn mask_laws()
    // An event is as it was set last; it is off from a loss of the capability that it needs, or from the end, until it is set again; what
    // no change speaks of is off.
    ensures settings { SettingsAsSet }

    // The first change that turns ClassFileLoadHook on decides of the hook, by what is held then, and no later one.
    ensures hook { HookGoesOn }
{}
