// The codes the tables know, with their systems, as one ascending table of numbers; and whether a code is one of them.
ghost use Rattle.std.specs.Prelude.{◌≡◌};
ghost use Rattle.rinex.specs.Codes.{is_taken};
ghost use Rattle.rinex.specs.Fit.{unpacked};
ghost use Rattle.rinex.specs.CodeNumbers.{code_numbers};
ghost use Rattle.code.specs.Known.{Around};

// How many there are.
const COUNT: usize = 330;

// From a code's number under a system to its number under the next; every code of three bytes is below it.
const STEP: u32 = 0x01000000;

// A blank attribute.
const BLANK: u32 = 0x20;

// The system in the highest byte, then the code's three.
const CODES: [u32; COUNT] = [
    0x00433143, // G C1C
    0x0043314c, // G C1L
    0x0043314d, // G C1M
    0x00433150, // G C1P
    0x00433153, // G C1S
    0x00433157, // G C1W
    0x00433158, // G C1X
    0x00433159, // G C1Y
    0x00433243, // G C2C
    0x00433244, // G C2D
    0x0043324c, // G C2L
    0x0043324d, // G C2M
    0x00433250, // G C2P
    0x00433253, // G C2S
    0x00433257, // G C2W
    0x00433258, // G C2X
    0x00433259, // G C2Y
    0x00433549, // G C5I
    0x00433551, // G C5Q
    0x00433558, // G C5X
    0x00443143, // G D1C
    0x0044314c, // G D1L
    0x0044314d, // G D1M
    0x0044314e, // G D1N
    0x00443150, // G D1P
    0x00443153, // G D1S
    0x00443157, // G D1W
    0x00443158, // G D1X
    0x00443159, // G D1Y
    0x00443243, // G D2C
    0x00443244, // G D2D
    0x0044324c, // G D2L
    0x0044324d, // G D2M
    0x0044324e, // G D2N
    0x00443250, // G D2P
    0x00443253, // G D2S
    0x00443257, // G D2W
    0x00443258, // G D2X
    0x00443259, // G D2Y
    0x00443549, // G D5I
    0x00443551, // G D5Q
    0x00443558, // G D5X
    0x004c3143, // G L1C
    0x004c314c, // G L1L
    0x004c314d, // G L1M
    0x004c314e, // G L1N
    0x004c3150, // G L1P
    0x004c3153, // G L1S
    0x004c3157, // G L1W
    0x004c3158, // G L1X
    0x004c3159, // G L1Y
    0x004c3243, // G L2C
    0x004c3244, // G L2D
    0x004c324c, // G L2L
    0x004c324d, // G L2M
    0x004c324e, // G L2N
    0x004c3250, // G L2P
    0x004c3253, // G L2S
    0x004c3257, // G L2W
    0x004c3258, // G L2X
    0x004c3259, // G L2Y
    0x004c3549, // G L5I
    0x004c3551, // G L5Q
    0x004c3558, // G L5X
    0x00533143, // G S1C
    0x0053314c, // G S1L
    0x0053314d, // G S1M
    0x0053314e, // G S1N
    0x00533150, // G S1P
    0x00533153, // G S1S
    0x00533157, // G S1W
    0x00533158, // G S1X
    0x00533159, // G S1Y
    0x00533243, // G S2C
    0x00533244, // G S2D
    0x0053324c, // G S2L
    0x0053324d, // G S2M
    0x0053324e, // G S2N
    0x00533250, // G S2P
    0x00533253, // G S2S
    0x00533257, // G S2W
    0x00533258, // G S2X
    0x00533259, // G S2Y
    0x00533549, // G S5I
    0x00533551, // G S5Q
    0x00533558, // G S5X
    0x01433143, // R C1C
    0x01433150, // R C1P
    0x01433243, // R C2C
    0x01433250, // R C2P
    0x01433349, // R C3I
    0x01433351, // R C3Q
    0x01433358, // R C3X
    0x01443143, // R D1C
    0x01443150, // R D1P
    0x01443243, // R D2C
    0x01443250, // R D2P
    0x01443349, // R D3I
    0x01443351, // R D3Q
    0x01443358, // R D3X
    0x014c3143, // R L1C
    0x014c3150, // R L1P
    0x014c3243, // R L2C
    0x014c3250, // R L2P
    0x014c3349, // R L3I
    0x014c3351, // R L3Q
    0x014c3358, // R L3X
    0x01533143, // R S1C
    0x01533150, // R S1P
    0x01533243, // R S2C
    0x01533250, // R S2P
    0x01533349, // R S3I
    0x01533351, // R S3Q
    0x01533358, // R S3X
    0x02433141, // E C1A
    0x02433142, // E C1B
    0x02433143, // E C1C
    0x02433158, // E C1X
    0x0243315a, // E C1Z
    0x02433549, // E C5I
    0x02433551, // E C5Q
    0x02433558, // E C5X
    0x02433641, // E C6A
    0x02433642, // E C6B
    0x02433643, // E C6C
    0x02433658, // E C6X
    0x0243365a, // E C6Z
    0x02433749, // E C7I
    0x02433751, // E C7Q
    0x02433758, // E C7X
    0x02433849, // E C8I
    0x02433851, // E C8Q
    0x02433858, // E C8X
    0x02443141, // E D1A
    0x02443142, // E D1B
    0x02443143, // E D1C
    0x02443158, // E D1X
    0x0244315a, // E D1Z
    0x02443549, // E D5I
    0x02443551, // E D5Q
    0x02443558, // E D5X
    0x02443641, // E D6A
    0x02443642, // E D6B
    0x02443643, // E D6C
    0x02443658, // E D6X
    0x0244365a, // E D6Z
    0x02443749, // E D7I
    0x02443751, // E D7Q
    0x02443758, // E D7X
    0x02443849, // E D8I
    0x02443851, // E D8Q
    0x02443858, // E D8X
    0x024c3141, // E L1A
    0x024c3142, // E L1B
    0x024c3143, // E L1C
    0x024c3158, // E L1X
    0x024c315a, // E L1Z
    0x024c3549, // E L5I
    0x024c3551, // E L5Q
    0x024c3558, // E L5X
    0x024c3641, // E L6A
    0x024c3642, // E L6B
    0x024c3643, // E L6C
    0x024c3658, // E L6X
    0x024c365a, // E L6Z
    0x024c3749, // E L7I
    0x024c3751, // E L7Q
    0x024c3758, // E L7X
    0x024c3849, // E L8I
    0x024c3851, // E L8Q
    0x024c3858, // E L8X
    0x02533141, // E S1A
    0x02533142, // E S1B
    0x02533143, // E S1C
    0x02533158, // E S1X
    0x0253315a, // E S1Z
    0x02533549, // E S5I
    0x02533551, // E S5Q
    0x02533558, // E S5X
    0x02533641, // E S6A
    0x02533642, // E S6B
    0x02533643, // E S6C
    0x02533658, // E S6X
    0x0253365a, // E S6Z
    0x02533749, // E S7I
    0x02533751, // E S7Q
    0x02533758, // E S7X
    0x02533849, // E S8I
    0x02533851, // E S8Q
    0x02533858, // E S8X
    0x03433143, // J C1C
    0x0343314c, // J C1L
    0x03433153, // J C1S
    0x03433158, // J C1X
    0x0343315a, // J C1Z
    0x0343324c, // J C2L
    0x03433253, // J C2S
    0x03433258, // J C2X
    0x03433549, // J C5I
    0x03433551, // J C5Q
    0x03433558, // J C5X
    0x0343364c, // J C6L
    0x03433653, // J C6S
    0x03433658, // J C6X
    0x03443143, // J D1C
    0x0344314c, // J D1L
    0x03443153, // J D1S
    0x03443158, // J D1X
    0x0344315a, // J D1Z
    0x0344324c, // J D2L
    0x03443253, // J D2S
    0x03443258, // J D2X
    0x03443549, // J D5I
    0x03443551, // J D5Q
    0x03443558, // J D5X
    0x0344364c, // J D6L
    0x03443653, // J D6S
    0x03443658, // J D6X
    0x034c3143, // J L1C
    0x034c314c, // J L1L
    0x034c3153, // J L1S
    0x034c3158, // J L1X
    0x034c315a, // J L1Z
    0x034c324c, // J L2L
    0x034c3253, // J L2S
    0x034c3258, // J L2X
    0x034c3549, // J L5I
    0x034c3551, // J L5Q
    0x034c3558, // J L5X
    0x034c364c, // J L6L
    0x034c3653, // J L6S
    0x034c3658, // J L6X
    0x03533143, // J S1C
    0x0353314c, // J S1L
    0x03533153, // J S1S
    0x03533158, // J S1X
    0x0353315a, // J S1Z
    0x0353324c, // J S2L
    0x03533253, // J S2S
    0x03533258, // J S2X
    0x03533549, // J S5I
    0x03533551, // J S5Q
    0x03533558, // J S5X
    0x0353364c, // J S6L
    0x03533653, // J S6S
    0x03533658, // J S6X
    0x04433249, // C C2I
    0x04433251, // C C2Q
    0x04433258, // C C2X
    0x04433649, // C C6I
    0x04433651, // C C6Q
    0x04433658, // C C6X
    0x04433749, // C C7I
    0x04433751, // C C7Q
    0x04433758, // C C7X
    0x04443249, // C D2I
    0x04443251, // C D2Q
    0x04443258, // C D2X
    0x04443649, // C D6I
    0x04443651, // C D6Q
    0x04443658, // C D6X
    0x04443749, // C D7I
    0x04443751, // C D7Q
    0x04443758, // C D7X
    0x044c3249, // C L2I
    0x044c3251, // C L2Q
    0x044c3258, // C L2X
    0x044c3649, // C L6I
    0x044c3651, // C L6Q
    0x044c3658, // C L6X
    0x044c3749, // C L7I
    0x044c3751, // C L7Q
    0x044c3758, // C L7X
    0x04533249, // C S2I
    0x04533251, // C S2Q
    0x04533258, // C S2X
    0x04533649, // C S6I
    0x04533651, // C S6Q
    0x04533658, // C S6X
    0x04533749, // C S7I
    0x04533751, // C S7Q
    0x04533758, // C S7X
    0x05433541, // I C5A
    0x05433542, // I C5B
    0x05433543, // I C5C
    0x05433558, // I C5X
    0x05433941, // I C9A
    0x05433942, // I C9B
    0x05433943, // I C9C
    0x05433958, // I C9X
    0x05443541, // I D5A
    0x05443542, // I D5B
    0x05443543, // I D5C
    0x05443558, // I D5X
    0x05443941, // I D9A
    0x05443942, // I D9B
    0x05443943, // I D9C
    0x05443958, // I D9X
    0x054c3541, // I L5A
    0x054c3542, // I L5B
    0x054c3543, // I L5C
    0x054c3558, // I L5X
    0x054c3941, // I L9A
    0x054c3942, // I L9B
    0x054c3943, // I L9C
    0x054c3958, // I L9X
    0x05533541, // I S5A
    0x05533542, // I S5B
    0x05533543, // I S5C
    0x05533558, // I S5X
    0x05533941, // I S9A
    0x05533942, // I S9B
    0x05533943, // I S9C
    0x05533958, // I S9X
    0x06433143, // S C1C
    0x06433549, // S C5I
    0x06433551, // S C5Q
    0x06433558, // S C5X
    0x06443143, // S D1C
    0x06443549, // S D5I
    0x06443551, // S D5Q
    0x06443558, // S D5X
    0x064c3143, // S L1C
    0x064c3549, // S L5I
    0x064c3551, // S L5Q
    0x064c3558, // S L5X
    0x06533143, // S S1C
    0x06533549, // S S5I
    0x06533551, // S S5Q
    0x06533558, // S S5X
];

// The table. Where several codes are asked for, it is made once and lent.
pub fn codes() -> [u32; COUNT]
    ensures { result ≡ code_numbers }
{
    CODES
}

// The place of the first that is not below a number, the last place and 1 if there is none.
fn first_from(table: &[u32; COUNT], number: u32) -> usize
    requires { table.now ≡ code_numbers }
    ensures { Around number result result }
{
    table.partition_point(|entry| *entry < number)
}

// Whether a code is taken under a system, by the table. A blank attribute comes before every letter: the first entry that is not below such a
// code is the first of its type and band, if there is any.
pub fn is_taken_by(table: &[u32; COUNT], system: usize, code: u32) -> bool
    requires { table.now ≡ code_numbers }
    ensures { result ≡ is_taken system (unpacked code) }
{
    if 7 <= system {
        return false;
    }
    if STEP <= code {
        return false;
    }
    let number = STEP * system as u32 + code;
    let at = first_from(table, number);
    if COUNT <= at {
        return false;
    }
    let found = table[at];
    if found == number {
        return true;
    }
    code % 256 == BLANK && found / 256 == number / 256
}

// Whether a code is taken under a system.
pub fn is_taken(system: usize, code: u32) -> bool
    ensures { result ≡ is_taken system (unpacked code) }
{
    let table = codes();
    is_taken_by(&table, system, code)
}
