//! The two definitions that a drill plays.
ghost use Rattle.std.specs.Prelude.{◌≡◌};
ghost use Rattle.sn_drill.specs.Definitions.{voice, mix8};

/// A short note, which frees itself.
pub(crate) fn voice() -> &'static [u8]
    ensures { result.now ≡ voice }
{
    b"snova 1
def voice
control freq 440000
control out 16
a = SinOsc freq 0
e = Line 0.25 0 500 2
m = Mul a e
Out.ar out m
end
"
}

/// The sum of eight buses, on both channels.
pub(crate) fn mix8() -> &'static [u8]
    ensures { result.now ≡ mix8 }
{
    b"snova 1
def mix8
a b c d e f g h = In.ar 16
i = Add a b
j = Add c d
k = Add e f
l = Add g h
m = Add i j
n = Add k l
o = Add m n
Out.ar 0 o o
end
"
}
