//! Access flags (JVMS SE 21 tables 4.1-B, 4.5-A and 4.6-A).
ghost use Rattle.std.specs.Prelude.{◌≡◌};
ghost use Rattle.fp_model.specs.Flags as access;

/// Of fields and methods: the class alone may use it.
pub const ACC_PRIVATE: u16 = 0x0002;

/// Of fields and methods: it belongs to no object.
pub const ACC_STATIC: u16 = 0x0008;

/// Of fields: it is written once at most.
pub const ACC_FINAL: u16 = 0x0010;

/// Of methods: its code stands outside Java.
pub const ACC_NATIVE: u16 = 0x0100;

/// Of classes: it is an interface.
pub const ACC_INTERFACE: u16 = 0x0200;

/// Of classes: no object has it as its own class. Of methods: it has no code.
pub const ACC_ABSTRACT: u16 = 0x0400;

/// Of class files: it describes a module.
pub const ACC_MODULE: u16 = 0x8000;

/// Whether the flags of a field or method have `ACC_PRIVATE`.
pub fn is_private(flags: u16) -> bool
    ensures { result ≡ access.is_private flags }
{
    flags & ACC_PRIVATE != 0
}

/// Whether the flags of a field or method have `ACC_STATIC`.
pub fn is_static(flags: u16) -> bool
    ensures { result ≡ access.is_static flags }
{
    flags & ACC_STATIC != 0
}

/// Whether the flags of a method have `ACC_NATIVE`.
pub fn is_native(flags: u16) -> bool
    ensures { result ≡ access.is_native flags }
{
    flags & ACC_NATIVE != 0
}

/// Whether the flags of a method have `ACC_NATIVE` or `ACC_ABSTRACT`, so that it has no code (section 4.7.3).
pub fn lacks_code(flags: u16) -> bool
    ensures { result ≡ access.lacks_code flags }
{
    flags & (ACC_NATIVE | ACC_ABSTRACT) != 0
}

/// Whether the flags of a class have `ACC_INTERFACE`.
pub fn is_interface(flags: u16) -> bool
    ensures { result ≡ access.is_interface flags }
{
    flags & ACC_INTERFACE != 0
}

/// Whether the flags of a class have neither `ACC_INTERFACE` nor `ACC_ABSTRACT`.
pub fn is_concrete(flags: u16) -> bool
    ensures { result ≡ access.is_concrete flags }
{
    flags & (ACC_INTERFACE | ACC_ABSTRACT) == 0
}

/// Whether the flags of a class file have `ACC_MODULE`.
pub fn is_module(flags: u16) -> bool
    ensures { result ≡ access.is_module flags }
{
    flags & ACC_MODULE != 0
}
