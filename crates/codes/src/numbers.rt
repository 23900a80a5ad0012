// The table: a number for each command byte. Its last hex digit is how many parameters the command applies at, the others are its kind.
// One number for both: a constant is laid out where it is named, so the table is small, and `decode` takes a number apart.
// None is 0: of zeros and other numbers in turn the compiler stores each by itself, of these eight at a time.
ghost use Rattle.std.specs.Prelude.{◌≡◌};
ghost use Rattle.codes.specs.Table.{table};

const CODES: [u16; 256] = [
    0xFF0, // 00
    0x010, // 01 SWRESET
    0xFF0, // 02
    0xFF0, // 03
    0xFF0, // 04
    0xFF0, // 05
    0xFF0, // 06
    0xFF0, // 07
    0xFF0, // 08
    0xFF0, // 09
    0xFF0, // 0A
    0xFF0, // 0B
    0xFF0, // 0C
    0xFF0, // 0D
    0xFF0, // 0E
    0xFF0, // 0F
    0x020, // 10 SLPIN
    0x030, // 11 SLPOUT
    0xFF0, // 12
    0xFF0, // 13
    0xFF0, // 14
    0xFF0, // 15
    0xFF0, // 16
    0xFF0, // 17
    0xFF0, // 18
    0xFF0, // 19
    0xFF0, // 1A
    0xFF0, // 1B
    0xFF0, // 1C
    0xFF0, // 1D
    0xFF0, // 1E
    0xFF0, // 1F
    0x040, // 20 INVOFF
    0x050, // 21 INVON
    0xFF0, // 22
    0xFF0, // 23
    0xFF0, // 24
    0xFF0, // 25
    0xFF0, // 26
    0xFF0, // 27
    0x060, // 28 DISPOFF
    0x070, // 29 DISPON
    0x084, // 2A CASET
    0x094, // 2B RASET
    0x0A0, // 2C RAMWR
    0xFF0, // 2D
    0xFF0, // 2E
    0xFF0, // 2F
    0xFF0, // 30
    0xFF0, // 31
    0xFF0, // 32
    0xFF0, // 33
    0xFF0, // 34
    0xFF0, // 35
    0x0B1, // 36 MADCTL
    0xFF0, // 37
    0xFF0, // 38
    0xFF0, // 39
    0x0C1, // 3A COLMOD
    0xFF0, // 3B
    0x0D0, // 3C RAMWRC
    0xFF0, // 3D
    0xFF0, // 3E
    0xFF0, // 3F
    0xFF0, // 40
    0xFF0, // 41
    0xFF0, // 42
    0xFF0, // 43
    0xFF0, // 44
    0xFF0, // 45
    0xFF0, // 46
    0xFF0, // 47
    0xFF0, // 48
    0xFF0, // 49
    0xFF0, // 4A
    0xFF0, // 4B
    0xFF0, // 4C
    0xFF0, // 4D
    0xFF0, // 4E
    0xFF0, // 4F
    0xFF0, // 50
    0xFF0, // 51
    0xFF0, // 52
    0xFF0, // 53
    0xFF0, // 54
    0xFF0, // 55
    0xFF0, // 56
    0xFF0, // 57
    0xFF0, // 58
    0xFF0, // 59
    0xFF0, // 5A
    0xFF0, // 5B
    0xFF0, // 5C
    0xFF0, // 5D
    0xFF0, // 5E
    0xFF0, // 5F
    0xFF0, // 60
    0xFF0, // 61
    0xFF0, // 62
    0xFF0, // 63
    0xFF0, // 64
    0xFF0, // 65
    0xFF0, // 66
    0xFF0, // 67
    0xFF0, // 68
    0xFF0, // 69
    0xFF0, // 6A
    0xFF0, // 6B
    0xFF0, // 6C
    0xFF0, // 6D
    0xFF0, // 6E
    0xFF0, // 6F
    0xFF0, // 70
    0xFF0, // 71
    0xFF0, // 72
    0xFF0, // 73
    0xFF0, // 74
    0xFF0, // 75
    0xFF0, // 76
    0xFF0, // 77
    0xFF0, // 78
    0xFF0, // 79
    0xFF0, // 7A
    0xFF0, // 7B
    0xFF0, // 7C
    0xFF0, // 7D
    0xFF0, // 7E
    0xFF0, // 7F
    0xFF0, // 80
    0xFF0, // 81
    0xFF0, // 82
    0xFF0, // 83
    0xFF0, // 84
    0xFF0, // 85
    0xFF0, // 86
    0xFF0, // 87
    0xFF0, // 88
    0xFF0, // 89
    0xFF0, // 8A
    0xFF0, // 8B
    0xFF0, // 8C
    0xFF0, // 8D
    0xFF0, // 8E
    0xFF0, // 8F
    0xFF0, // 90
    0xFF0, // 91
    0xFF0, // 92
    0xFF0, // 93
    0xFF0, // 94
    0xFF0, // 95
    0xFF0, // 96
    0xFF0, // 97
    0xFF0, // 98
    0xFF0, // 99
    0xFF0, // 9A
    0xFF0, // 9B
    0xFF0, // 9C
    0xFF0, // 9D
    0xFF0, // 9E
    0xFF0, // 9F
    0xFF0, // A0
    0xFF0, // A1
    0xFF0, // A2
    0xFF0, // A3
    0xFF0, // A4
    0xFF0, // A5
    0xFF0, // A6
    0xFF0, // A7
    0xFF0, // A8
    0xFF0, // A9
    0xFF0, // AA
    0xFF0, // AB
    0xFF0, // AC
    0xFF0, // AD
    0xFF0, // AE
    0xFF0, // AF
    0x0E2, // B0 RAMCTRL
    0xFF0, // B1
    0x0F0, // B2 PORCTRL
    0xFF0, // B3
    0xFF0, // B4
    0xFF0, // B5
    0xFF0, // B6
    0x100, // B7 GCTRL
    0xFF0, // B8
    0xFF0, // B9
    0xFF0, // BA
    0x110, // BB VCOMS
    0xFF0, // BC
    0xFF0, // BD
    0xFF0, // BE
    0xFF0, // BF
    0x120, // C0 LCMCTRL
    0xFF0, // C1
    0x130, // C2 VDVVRHEN
    0x140, // C3 VRHS
    0x150, // C4 VDVS
    0xFF0, // C5
    0x160, // C6 FRCTRL2
    0xFF0, // C7
    0xFF0, // C8
    0xFF0, // C9
    0xFF0, // CA
    0xFF0, // CB
    0xFF0, // CC
    0xFF0, // CD
    0xFF0, // CE
    0xFF0, // CF
    0x170, // D0 PWCTRL1
    0xFF0, // D1
    0xFF0, // D2
    0xFF0, // D3
    0xFF0, // D4
    0xFF0, // D5
    0x180, // D6 VENDOR_D6
    0xFF0, // D7
    0xFF0, // D8
    0xFF0, // D9
    0xFF0, // DA
    0xFF0, // DB
    0xFF0, // DC
    0xFF0, // DD
    0xFF0, // DE
    0xFF0, // DF
    0x190, // E0 PVGAMCTRL
    0x1A0, // E1 NVGAMCTRL
    0xFF0, // E2
    0xFF0, // E3
    0xFF0, // E4
    0xFF0, // E5
    0xFF0, // E6
    0xFF0, // E7
    0xFF0, // E8
    0xFF0, // E9
    0xFF0, // EA
    0xFF0, // EB
    0xFF0, // EC
    0xFF0, // ED
    0xFF0, // EE
    0xFF0, // EF
    0xFF0, // F0
    0xFF0, // F1
    0xFF0, // F2
    0xFF0, // F3
    0xFF0, // F4
    0xFF0, // F5
    0xFF0, // F6
    0xFF0, // F7
    0xFF0, // F8
    0xFF0, // F9
    0xFF0, // FA
    0xFF0, // FB
    0xFF0, // FC
    0xFF0, // FD
    0xFF0, // FE
    0xFF0, // FF
];

// The table to decode by. A constant is laid out anew wherever it is named, so a segment asks for it once.
pub fn table() -> [u16; 256]
    ensures answer { result ≡ table }
{
    CODES
}
