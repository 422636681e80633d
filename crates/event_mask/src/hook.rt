/// Whether the hook of an environment is capable of retransformation (JVM TI, "RetransformClasses"). That is decided when the
/// environment turns ClassFileLoadHook on for the first time; before, it is Unset.
#[derive(Clone, Copy, Debug, PartialEq, Eq)]
pub enum HookClass {
    Unset,
    Capable,
    Incapable,
}
