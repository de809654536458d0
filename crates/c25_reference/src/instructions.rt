//! The entries of the instructions, made of docs/manual/reference.md by docs/reference.py --write.

use crate::entry::Entry;

pub(crate) static MPY: Entry = Entry {
    name: "MPY",
    form: "MPY dma\nMPY ind[,next]\n",
    does: "Multiplies T by the data word into P.\n",
    example: " MPY 60h\n MPY *+,AR1\n",
};

pub(crate) static SQRA: Entry = Entry {
    name: "SQRA",
    form: "SQRA dma\nSQRA ind[,next]\n",
    does: "Adds P, shifted as PM says, to the accumulator, loads T with the data word, and squares it into P.\nAffected by PM, OVM. Affects C, OV.\n",
    example: " SQRA 60h\n SQRA *+,AR1\n",
};

pub(crate) static MPYA: Entry = Entry {
    name: "MPYA",
    form: "MPYA dma\nMPYA ind[,next]\n",
    does: "Adds P, shifted as PM says, to the accumulator, and multiplies T by the data word into P.\nAffected by PM, OVM. Affects C, OV.\n",
    example: " MPYA 60h\n MPYA *+,AR1\n",
};

pub(crate) static MPYS: Entry = Entry {
    name: "MPYS",
    form: "MPYS dma\nMPYS ind[,next]\n",
    does: "Subtracts P, shifted as PM says, from the accumulator, and multiplies T by the data word into P.\nAffected by PM, OVM. Affects C, OV.\n",
    example: " MPYS 60h\n MPYS *+,AR1\n",
};

pub(crate) static LT: Entry = Entry {
    name: "LT",
    form: "LT dma\nLT ind[,next]\n",
    does: "Loads T with the data word.\n",
    example: " LT 60h\n LT *+,AR1\n",
};

pub(crate) static LTA: Entry = Entry {
    name: "LTA",
    form: "LTA dma\nLTA ind[,next]\n",
    does: "Loads T with the data word, and adds P, shifted as PM says, to the accumulator.\nAffected by PM, OVM. Affects C, OV.\n",
    example: " LTA 60h\n LTA *+,AR1\n",
};

pub(crate) static LTP: Entry = Entry {
    name: "LTP",
    form: "LTP dma\nLTP ind[,next]\n",
    does: "Loads T with the data word, and the accumulator with P, shifted as PM says.\nAffected by PM.\n",
    example: " LTP 60h\n LTP *+,AR1\n",
};

pub(crate) static LTD: Entry = Entry {
    name: "LTD",
    form: "LTD dma\nLTD ind[,next]\n",
    does: "Loads T with the data word, copies it to the next address, and adds P, shifted as PM says, to the\naccumulator.\nAffected by PM, OVM. Affects C, OV.\n",
    example: " LTD 60h\n LTD *+,AR1\n",
};

pub(crate) static ZALH: Entry = Entry {
    name: "ZALH",
    form: "ZALH dma\nZALH ind[,next]\n",
    does: "Loads the high half of the accumulator with the data word, and clears its low half.\n",
    example: " ZALH 60h\n ZALH *+,AR1\n",
};

pub(crate) static ZALS: Entry = Entry {
    name: "ZALS",
    form: "ZALS dma\nZALS ind[,next]\n",
    does: "Loads the low half of the accumulator with the data word, and clears its high half.\n",
    example: " ZALS 60h\n ZALS *+,AR1\n",
};

pub(crate) static LACT: Entry = Entry {
    name: "LACT",
    form: "LACT dma\nLACT ind[,next]\n",
    does: "Loads the accumulator with the data word, shifted left by the low four bits of T.\nAffected by SXM.\n",
    example: " LACT 60h\n LACT *+,AR1\n",
};

pub(crate) static ADDC: Entry = Entry {
    name: "ADDC",
    form: "ADDC dma\nADDC ind[,next]\n",
    does: "Adds the data word, without its sign extended, and C to the accumulator.\nAffected by C, OVM. Affects C, OV.\n",
    example: " ADDC 60h\n ADDC *+,AR1\n",
};

pub(crate) static SUBH: Entry = Entry {
    name: "SUBH",
    form: "SUBH dma\nSUBH ind[,next]\n",
    does: "Subtracts the data word from the high half of the accumulator.\nAffected by OVM. Affects C, OV.\n",
    example: " SUBH 60h\n SUBH *+,AR1\n",
};

pub(crate) static SUBS: Entry = Entry {
    name: "SUBS",
    form: "SUBS dma\nSUBS ind[,next]\n",
    does: "Subtracts the data word, without its sign extended, from the accumulator.\nAffected by OVM. Affects C, OV.\n",
    example: " SUBS 60h\n SUBS *+,AR1\n",
};

pub(crate) static SUBT: Entry = Entry {
    name: "SUBT",
    form: "SUBT dma\nSUBT ind[,next]\n",
    does: "Subtracts the data word, shifted left by the low four bits of T, from the accumulator.\nAffected by SXM, OVM. Affects C, OV.\n",
    example: " SUBT 60h\n SUBT *+,AR1\n",
};

pub(crate) static SUBC: Entry = Entry {
    name: "SUBC",
    form: "SUBC dma\nSUBC ind[,next]\n",
    does: "Does a step of a division by the data word: 16 of them, by RPTK 15, divide.\nAffected by SXM. Affects C, OV.\n",
    example: " SUBC 60h\n SUBC *+,AR1\n",
};

pub(crate) static ADDH: Entry = Entry {
    name: "ADDH",
    form: "ADDH dma\nADDH ind[,next]\n",
    does: "Adds the data word to the high half of the accumulator.\nAffected by OVM. Affects C, OV.\n",
    example: " ADDH 60h\n ADDH *+,AR1\n",
};

pub(crate) static ADDS: Entry = Entry {
    name: "ADDS",
    form: "ADDS dma\nADDS ind[,next]\n",
    does: "Adds the data word, without its sign extended, to the accumulator.\nAffected by OVM. Affects C, OV.\n",
    example: " ADDS 60h\n ADDS *+,AR1\n",
};

pub(crate) static ADDT: Entry = Entry {
    name: "ADDT",
    form: "ADDT dma\nADDT ind[,next]\n",
    does: "Adds the data word, shifted left by the low four bits of T, to the accumulator.\nAffected by SXM, OVM. Affects C, OV.\n",
    example: " ADDT 60h\n ADDT *+,AR1\n",
};

pub(crate) static RPT: Entry = Entry {
    name: "RPT",
    form: "RPT dma\nRPT ind[,next]\n",
    does: "Repeats the next instruction: it acts once more than the low eight bits of the data word say.\n",
    example: " RPT 60h\n RPT *+,AR1\n",
};

pub(crate) static XOR: Entry = Entry {
    name: "XOR",
    form: "XOR dma\nXOR ind[,next]\n",
    does: "Inverts the bits of the low half of the accumulator that are 1 in the data word.\n",
    example: " XOR 60h\n XOR *+,AR1\n",
};

pub(crate) static OR: Entry = Entry {
    name: "OR",
    form: "OR dma\nOR ind[,next]\n",
    does: "Ors the low half of the accumulator with the data word.\n",
    example: " OR 60h\n OR *+,AR1\n",
};

pub(crate) static AND: Entry = Entry {
    name: "AND",
    form: "AND dma\nAND ind[,next]\n",
    does: "Ands the low half of the accumulator with the data word, and clears its high half.\n",
    example: " AND 60h\n AND *+,AR1\n",
};

pub(crate) static SUBB: Entry = Entry {
    name: "SUBB",
    form: "SUBB dma\nSUBB ind[,next]\n",
    does: "Subtracts the data word, without its sign extended, and 1 where C is 0 from the accumulator.\nAffected by C, OVM. Affects C, OV.\n",
    example: " SUBB 60h\n SUBB *+,AR1\n",
};

pub(crate) static LST: Entry = Entry {
    name: "LST",
    form: "LST dma\nLST ind[,next]\n",
    does: "Loads the status word ST0 but for INTM from the data word.\nAffects OV, ARP, OVM, DP.\n",
    example: " LST 60h\n LST *+,AR1\n",
};

pub(crate) static LST1: Entry = Entry {
    name: "LST1",
    form: "LST1 dma\nLST1 ind[,next]\n",
    does: "Loads the status word ST1, and ARP by ARB, from the data word.\nAffects C, ARP, ARB, CNF, TC, SXM, HM, FSM, XF, FO, TXM, PM.\n",
    example: " LST1 60h\n LST1 *+,AR1\n",
};

pub(crate) static LDP: Entry = Entry {
    name: "LDP",
    form: "LDP dma\nLDP ind[,next]\n",
    does: "Loads DP with the low nine bits of the data word.\nAffects DP.\n",
    example: " LDP 60h\n LDP *+,AR1\n",
};

pub(crate) static LPH: Entry = Entry {
    name: "LPH",
    form: "LPH dma\nLPH ind[,next]\n",
    does: "Loads the high half of P with the data word.\n",
    example: " LPH 60h\n LPH *+,AR1\n",
};

pub(crate) static PSHD: Entry = Entry {
    name: "PSHD",
    form: "PSHD dma\nPSHD ind[,next]\n",
    does: "Pushes the data word on the stack.\n",
    example: " PSHD 60h\n PSHD *+,AR1\n",
};

pub(crate) static MAR: Entry = Entry {
    name: "MAR",
    form: "MAR dma\nMAR ind[,next]\n",
    does: "Changes AR(ARP) and ARP as an indirect operand says; does nothing with a direct one.\n",
    example: " MAR 60h\n MAR *+,AR1\n",
};

pub(crate) static DMOV: Entry = Entry {
    name: "DMOV",
    form: "DMOV dma\nDMOV ind[,next]\n",
    does: "Copies the data word to the next address.\n",
    example: " DMOV 60h\n DMOV *+,AR1\n",
};

pub(crate) static BITT: Entry = Entry {
    name: "BITT",
    form: "BITT dma\nBITT ind[,next]\n",
    does: "Copies a bit of the data word to TC; the low four bits of T are the bit code.\nAffects TC.\n",
    example: " BITT 60h\n BITT *+,AR1\n",
};

pub(crate) static TBLR: Entry = Entry {
    name: "TBLR",
    form: "TBLR dma\nTBLR ind[,next]\n",
    does: "Copies the word of program memory at the address in the low half of the accumulator to the data\nword.\n",
    example: " TBLR 60h\n TBLR *+,AR1\n",
};

pub(crate) static TBLW: Entry = Entry {
    name: "TBLW",
    form: "TBLW dma\nTBLW ind[,next]\n",
    does: "Copies the data word to program memory, at the address in the low half of the accumulator.\n",
    example: " TBLW 60h\n TBLW *+,AR1\n",
};

pub(crate) static SQRS: Entry = Entry {
    name: "SQRS",
    form: "SQRS dma\nSQRS ind[,next]\n",
    does: "Subtracts P, shifted as PM says, from the accumulator, loads T with the data word, and squares it\ninto P.\nAffected by PM, OVM. Affects C, OV.\n",
    example: " SQRS 60h\n SQRS *+,AR1\n",
};

pub(crate) static LTS: Entry = Entry {
    name: "LTS",
    form: "LTS dma\nLTS ind[,next]\n",
    does: "Loads T with the data word, and subtracts P, shifted as PM says, from the accumulator.\nAffected by PM, OVM. Affects C, OV.\n",
    example: " LTS 60h\n LTS *+,AR1\n",
};

pub(crate) static SST: Entry = Entry {
    name: "SST",
    form: "SST dma\nSST ind[,next]\n",
    does: "Stores the status word ST0 in the data word; a direct operand is on page 0.\n",
    example: " SST 60h\n SST *+,AR1\n",
};

pub(crate) static SST1: Entry = Entry {
    name: "SST1",
    form: "SST1 dma\nSST1 ind[,next]\n",
    does: "Stores the status word ST1 in the data word; a direct operand is on page 0.\n",
    example: " SST1 60h\n SST1 *+,AR1\n",
};

pub(crate) static POPD: Entry = Entry {
    name: "POPD",
    form: "POPD dma\nPOPD ind[,next]\n",
    does: "Stores the top of the stack in the data word.\n",
    example: " POPD 60h\n POPD *+,AR1\n",
};

pub(crate) static ZALR: Entry = Entry {
    name: "ZALR",
    form: "ZALR dma\nZALR ind[,next]\n",
    does: "Loads the high half of the accumulator with the data word, and its low half with 8000h, which\nrounds.\n",
    example: " ZALR 60h\n ZALR *+,AR1\n",
};

pub(crate) static SPL: Entry = Entry {
    name: "SPL",
    form: "SPL dma\nSPL ind[,next]\n",
    does: "Stores the low half of P, shifted as PM says, in the data word.\nAffected by PM.\n",
    example: " SPL 60h\n SPL *+,AR1\n",
};

pub(crate) static SPH: Entry = Entry {
    name: "SPH",
    form: "SPH dma\nSPH ind[,next]\n",
    does: "Stores the high half of P, shifted as PM says, in the data word.\nAffected by PM.\n",
    example: " SPH 60h\n SPH *+,AR1\n",
};

pub(crate) static MPYU: Entry = Entry {
    name: "MPYU",
    form: "MPYU dma\nMPYU ind[,next]\n",
    does: "Multiplies T by the data word into P, both without sign.\n",
    example: " MPYU 60h\n MPYU *+,AR1\n",
};

pub(crate) static ADD: Entry = Entry {
    name: "ADD",
    form: "ADD dma[,shift]\nADD ind[,shift[,next]]\n",
    does: "Adds the data word, shifted left, to the accumulator.\nAffected by SXM, OVM. Affects C, OV.\n",
    example: " ADD 60h,4\n ADD *+,4,AR1\n",
};

pub(crate) static SUB: Entry = Entry {
    name: "SUB",
    form: "SUB dma[,shift]\nSUB ind[,shift[,next]]\n",
    does: "Subtracts the data word, shifted left, from the accumulator.\nAffected by SXM, OVM. Affects C, OV.\n",
    example: " SUB 60h,4\n SUB *+,4,AR1\n",
};

pub(crate) static LAC: Entry = Entry {
    name: "LAC",
    form: "LAC dma[,shift]\nLAC ind[,shift[,next]]\n",
    does: "Loads the accumulator with the data word, shifted left.\nAffected by SXM.\n",
    example: " LAC 60h,4\n LAC *+,4,AR1\n",
};

pub(crate) static SACL: Entry = Entry {
    name: "SACL",
    form: "SACL dma[,shift]\nSACL ind[,shift[,next]]\n",
    does: "Stores the low half of the accumulator, shifted left by 0 to 7 bits, in the data word.\n",
    example: " SACL 60h,4\n SACL *+,4,AR1\n",
};

pub(crate) static SACH: Entry = Entry {
    name: "SACH",
    form: "SACH dma[,shift]\nSACH ind[,shift[,next]]\n",
    does: "Stores the high half of the accumulator, shifted left by 0 to 7 bits, in the data word.\n",
    example: " SACH 60h,4\n SACH *+,4,AR1\n",
};

pub(crate) static LAR: Entry = Entry {
    name: "LAR",
    form: "LAR ar,dma\nLAR ar,ind[,next]\n",
    does: "Loads an auxiliary register with the data word.\n",
    example: " LAR AR2,60h\n LAR AR2,*+,AR1\n",
};

pub(crate) static SAR: Entry = Entry {
    name: "SAR",
    form: "SAR ar,dma\nSAR ar,ind[,next]\n",
    does: "Stores an auxiliary register in the data word.\n",
    example: " SAR AR2,60h\n SAR AR2,*+,AR1\n",
};

pub(crate) static IN: Entry = Entry {
    name: "IN",
    form: "IN dma,port\nIN ind,port[,next]\n",
    does: "Reads a word of a port into the data word.\n",
    example: " IN 60h,PA1\n IN *+,PA1,AR1\n",
};

pub(crate) static OUT: Entry = Entry {
    name: "OUT",
    form: "OUT dma,port\nOUT ind,port[,next]\n",
    does: "Writes the data word to a port.\n",
    example: " OUT 60h,PA1\n OUT *+,PA1,AR1\n",
};

pub(crate) static BIT: Entry = Entry {
    name: "BIT",
    form: "BIT dma,bit\nBIT ind,bit[,next]\n",
    does: "Copies a bit of the data word to TC; the bit code is 15 less the bit's number.\nAffects TC.\n",
    example: " BIT 60h,15\n BIT *,15,AR1\n",
};

pub(crate) static ADRK: Entry = Entry {
    name: "ADRK",
    form: "ADRK constant\n",
    does: "Adds a constant of 8 bits to AR(ARP).\n",
    example: " ADRK 5\n",
};

pub(crate) static SBRK: Entry = Entry {
    name: "SBRK",
    form: "SBRK constant\n",
    does: "Subtracts a constant of 8 bits from AR(ARP).\n",
    example: " SBRK 5\n",
};

pub(crate) static LARK: Entry = Entry {
    name: "LARK",
    form: "LARK ar,constant\n",
    does: "Loads an auxiliary register with a constant of 8 bits.\n",
    example: " LARK AR2,5\n",
};

pub(crate) static LACK: Entry = Entry {
    name: "LACK",
    form: "LACK constant\n",
    does: "Loads the accumulator with a constant of 8 bits.\n",
    example: " LACK 5\n",
};

pub(crate) static RPTK: Entry = Entry {
    name: "RPTK",
    form: "RPTK constant\n",
    does: "Repeats the next instruction: it acts once more than a constant of 8 bits says.\n",
    example: " RPTK 15\n",
};

pub(crate) static ADDK: Entry = Entry {
    name: "ADDK",
    form: "ADDK constant\n",
    does: "Adds a constant of 8 bits to the accumulator.\nAffected by OVM. Affects C, OV.\n",
    example: " ADDK 5\n",
};

pub(crate) static SUBK: Entry = Entry {
    name: "SUBK",
    form: "SUBK constant\n",
    does: "Subtracts a constant of 8 bits from the accumulator.\nAffected by OVM. Affects C, OV.\n",
    example: " SUBK 5\n",
};

pub(crate) static LDPK: Entry = Entry {
    name: "LDPK",
    form: "LDPK constant\n",
    does: "Loads DP with a number; of an address it is the page.\nAffects DP.\n",
    example: " LDPK 6\n",
};

pub(crate) static MPYK: Entry = Entry {
    name: "MPYK",
    form: "MPYK constant\n",
    does: "Multiplies T by a constant of 13 bits with its sign into P.\n",
    example: " MPYK -5\n",
};

pub(crate) static LRLK: Entry = Entry {
    name: "LRLK",
    form: "LRLK ar,constant\n",
    does: "Loads an auxiliary register with a constant of 16 bits.\n",
    example: " LRLK AR2,300h\n",
};

pub(crate) static LALK: Entry = Entry {
    name: "LALK",
    form: "LALK constant[,shift]\n",
    does: "Loads the accumulator with a constant of 16 bits, shifted left.\nAffected by SXM.\n",
    example: " LALK 1234h\n LALK 1234h,4\n",
};

pub(crate) static ADLK: Entry = Entry {
    name: "ADLK",
    form: "ADLK constant[,shift]\n",
    does: "Adds a constant of 16 bits, shifted left, to the accumulator.\nAffected by SXM, OVM. Affects C, OV.\n",
    example: " ADLK 1234h\n ADLK 1234h,4\n",
};

pub(crate) static SBLK: Entry = Entry {
    name: "SBLK",
    form: "SBLK constant[,shift]\n",
    does: "Subtracts a constant of 16 bits, shifted left, from the accumulator.\nAffected by SXM, OVM. Affects C, OV.\n",
    example: " SBLK 1234h\n SBLK 1234h,4\n",
};

pub(crate) static ANDK: Entry = Entry {
    name: "ANDK",
    form: "ANDK constant[,shift]\n",
    does: "Ands the accumulator with a constant of 16 bits, shifted left.\n",
    example: " ANDK 1234h\n ANDK 1234h,4\n",
};

pub(crate) static ORK: Entry = Entry {
    name: "ORK",
    form: "ORK constant[,shift]\n",
    does: "Ors the accumulator with a constant of 16 bits, shifted left.\n",
    example: " ORK 1234h\n ORK 1234h,4\n",
};

pub(crate) static XORK: Entry = Entry {
    name: "XORK",
    form: "XORK constant[,shift]\n",
    does: "Inverts the bits of the accumulator that are 1 in a constant of 16 bits, shifted left.\n",
    example: " XORK 1234h\n XORK 1234h,4\n",
};

pub(crate) static MACD: Entry = Entry {
    name: "MACD",
    form: "MACD pma,dma\nMACD pma,ind[,next]\n",
    does: "Does what MAC does, and copies the data word to the next address.\nAffected by PM, OVM. Affects C, OV.\n",
    example: " MACD 400h,60h\n MACD 400h,*+,AR1\n",
};

pub(crate) static MAC: Entry = Entry {
    name: "MAC",
    form: "MAC pma,dma\nMAC pma,ind[,next]\n",
    does: "Adds P, shifted as PM says, to the accumulator, loads T with the data word, and multiplies it by a\nword of program memory into P.\nAffected by PM, OVM. Affects C, OV.\n",
    example: " MAC 400h,60h\n MAC 400h,*+,AR1\n",
};

pub(crate) static BLKP: Entry = Entry {
    name: "BLKP",
    form: "BLKP pma,dma\nBLKP pma,ind[,next]\n",
    does: "Copies a word of program memory to the data word.\n",
    example: " BLKP 400h,60h\n BLKP 400h,*+,AR1\n",
};

pub(crate) static BLKD: Entry = Entry {
    name: "BLKD",
    form: "BLKD dma,dma\nBLKD dma,ind[,next]\n",
    does: "Copies a word of data memory to the data word.\n",
    example: " BLKD 300h,60h\n BLKD 300h,*+,AR1\n",
};

pub(crate) static BC: Entry = Entry {
    name: "BC",
    form: "BC pma[,ind[,next]]\n",
    does: "Goes on at a program address where C is 1.\nAffected by C.\n",
    example: " BC 30h\n BC 30h,*-,AR1\n",
};

pub(crate) static BNC: Entry = Entry {
    name: "BNC",
    form: "BNC pma[,ind[,next]]\n",
    does: "Goes on at a program address where C is 0.\nAffected by C.\n",
    example: " BNC 30h\n BNC 30h,*-,AR1\n",
};

pub(crate) static BV: Entry = Entry {
    name: "BV",
    form: "BV pma[,ind[,next]]\n",
    does: "Goes on at a program address where OV is 1, and clears OV.\nAffected by OV. Affects OV.\n",
    example: " BV 30h\n BV 30h,*-,AR1\n",
};

pub(crate) static BGZ: Entry = Entry {
    name: "BGZ",
    form: "BGZ pma[,ind[,next]]\n",
    does: "Goes on at a program address where the accumulator is more than 0.\n",
    example: " BGZ 30h\n BGZ 30h,*-,AR1\n",
};

pub(crate) static BLEZ: Entry = Entry {
    name: "BLEZ",
    form: "BLEZ pma[,ind[,next]]\n",
    does: "Goes on at a program address where the accumulator is 0 or less.\n",
    example: " BLEZ 30h\n BLEZ 30h,*-,AR1\n",
};

pub(crate) static BLZ: Entry = Entry {
    name: "BLZ",
    form: "BLZ pma[,ind[,next]]\n",
    does: "Goes on at a program address where the accumulator is less than 0.\n",
    example: " BLZ 30h\n BLZ 30h,*-,AR1\n",
};

pub(crate) static BGEZ: Entry = Entry {
    name: "BGEZ",
    form: "BGEZ pma[,ind[,next]]\n",
    does: "Goes on at a program address where the accumulator is 0 or more.\n",
    example: " BGEZ 30h\n BGEZ 30h,*-,AR1\n",
};

pub(crate) static BNZ: Entry = Entry {
    name: "BNZ",
    form: "BNZ pma[,ind[,next]]\n",
    does: "Goes on at a program address where the accumulator is not 0.\n",
    example: " BNZ 30h\n BNZ 30h,*-,AR1\n",
};

pub(crate) static BZ: Entry = Entry {
    name: "BZ",
    form: "BZ pma[,ind[,next]]\n",
    does: "Goes on at a program address where the accumulator is 0.\n",
    example: " BZ 30h\n BZ 30h,*-,AR1\n",
};

pub(crate) static BNV: Entry = Entry {
    name: "BNV",
    form: "BNV pma[,ind[,next]]\n",
    does: "Goes on at a program address where OV is 0; clears OV where it is 1.\nAffected by OV. Affects OV.\n",
    example: " BNV 30h\n BNV 30h,*-,AR1\n",
};

pub(crate) static BBZ: Entry = Entry {
    name: "BBZ",
    form: "BBZ pma[,ind[,next]]\n",
    does: "Goes on at a program address where TC is 0.\nAffected by TC.\n",
    example: " BBZ 30h\n BBZ 30h,*-,AR1\n",
};

pub(crate) static BBNZ: Entry = Entry {
    name: "BBNZ",
    form: "BBNZ pma[,ind[,next]]\n",
    does: "Goes on at a program address where TC is 1.\nAffected by TC.\n",
    example: " BBNZ 30h\n BBNZ 30h,*-,AR1\n",
};

pub(crate) static BIOZ: Entry = Entry {
    name: "BIOZ",
    form: "BIOZ pma[,ind[,next]]\n",
    does: "Goes on at a program address where the pin BIO is low.\nAffected by BIO.\n",
    example: " BIOZ 30h\n BIOZ 30h,*-,AR1\n",
};

pub(crate) static BANZ: Entry = Entry {
    name: "BANZ",
    form: "BANZ pma[,ind[,next]]\n",
    does: "Goes on at a program address where AR(ARP) is not 0; changes AR(ARP) in either case, by -1 without\nan operand.\n",
    example: " BANZ 30h\n BANZ 30h,*-,AR1\n",
};

pub(crate) static CALL: Entry = Entry {
    name: "CALL",
    form: "CALL pma[,ind[,next]]\n",
    does: "Calls the routine at a program address.\n",
    example: " CALL 30h\n CALL 30h,*-,AR1\n",
};

pub(crate) static B: Entry = Entry {
    name: "B",
    form: "B pma[,ind[,next]]\n",
    does: "Goes on at a program address.\n",
    example: " B 30h\n B 30h,*-,AR1\n",
};

pub(crate) static EINT: Entry = Entry {
    name: "EINT",
    form: "EINT\n",
    does: "Lets interrupts through, from after the next instruction on.\nAffects INTM.\n",
    example: " EINT\n",
};

pub(crate) static DINT: Entry = Entry {
    name: "DINT",
    form: "DINT\n",
    does: "Holds interrupts back.\nAffects INTM.\n",
    example: " DINT\n",
};

pub(crate) static ROVM: Entry = Entry {
    name: "ROVM",
    form: "ROVM\n",
    does: "Clears OVM: sums that overflow wrap around.\nAffects OVM.\n",
    example: " ROVM\n",
};

pub(crate) static SOVM: Entry = Entry {
    name: "SOVM",
    form: "SOVM\n",
    does: "Sets OVM: sums that overflow become the nearest number.\nAffects OVM.\n",
    example: " SOVM\n",
};

pub(crate) static CNFD: Entry = Entry {
    name: "CNFD",
    form: "CNFD\n",
    does: "Makes block B0 data memory.\nAffects CNF.\n",
    example: " CNFD\n",
};

pub(crate) static CNFP: Entry = Entry {
    name: "CNFP",
    form: "CNFP\n",
    does: "Makes block B0 program memory.\nAffects CNF.\n",
    example: " CNFP\n",
};

pub(crate) static RSXM: Entry = Entry {
    name: "RSXM",
    form: "RSXM\n",
    does: "Clears SXM: words are loaded without their sign extended.\nAffects SXM.\n",
    example: " RSXM\n",
};

pub(crate) static SSXM: Entry = Entry {
    name: "SSXM",
    form: "SSXM\n",
    does: "Sets SXM: words are loaded with their sign extended.\nAffects SXM.\n",
    example: " SSXM\n",
};

pub(crate) static RXF: Entry = Entry {
    name: "RXF",
    form: "RXF\n",
    does: "Makes the pin XF low.\nAffects XF.\n",
    example: " RXF\n",
};

pub(crate) static SXF: Entry = Entry {
    name: "SXF",
    form: "SXF\n",
    does: "Makes the pin XF high.\nAffects XF.\n",
    example: " SXF\n",
};

pub(crate) static PAC: Entry = Entry {
    name: "PAC",
    form: "PAC\n",
    does: "Loads the accumulator with P, shifted as PM says.\nAffected by PM.\n",
    example: " PAC\n",
};

pub(crate) static APAC: Entry = Entry {
    name: "APAC",
    form: "APAC\n",
    does: "Adds P, shifted as PM says, to the accumulator.\nAffected by PM, OVM. Affects C, OV.\n",
    example: " APAC\n",
};

pub(crate) static SPAC: Entry = Entry {
    name: "SPAC",
    form: "SPAC\n",
    does: "Subtracts P, shifted as PM says, from the accumulator.\nAffected by PM, OVM. Affects C, OV.\n",
    example: " SPAC\n",
};

pub(crate) static SFL: Entry = Entry {
    name: "SFL",
    form: "SFL\n",
    does: "Shifts the accumulator left by one bit, and its highest bit into C.\nAffects C.\n",
    example: " SFL\n",
};

pub(crate) static SFR: Entry = Entry {
    name: "SFR",
    form: "SFR\n",
    does: "Shifts the accumulator right by one bit, and its lowest bit into C.\nAffected by SXM. Affects C.\n",
    example: " SFR\n",
};

pub(crate) static ABS: Entry = Entry {
    name: "ABS",
    form: "ABS\n",
    does: "Replaces the accumulator by its absolute value.\nAffected by OVM. Affects C, OV.\n",
    example: " ABS\n",
};

pub(crate) static PUSH: Entry = Entry {
    name: "PUSH",
    form: "PUSH\n",
    does: "Pushes the low half of the accumulator on the stack.\n",
    example: " PUSH\n",
};

pub(crate) static POP: Entry = Entry {
    name: "POP",
    form: "POP\n",
    does: "Loads the low half of the accumulator from the stack, and clears its high half.\n",
    example: " POP\n",
};

pub(crate) static TRAP: Entry = Entry {
    name: "TRAP",
    form: "TRAP\n",
    does: "Calls the routine at address 1Eh.\n",
    example: " TRAP\n",
};

pub(crate) static IDLE: Entry = Entry {
    name: "IDLE",
    form: "IDLE\n",
    does: "Lets interrupts through, and waits for one.\nAffects INTM.\n",
    example: " IDLE\n",
};

pub(crate) static RTXM: Entry = Entry {
    name: "RTXM",
    form: "RTXM\n",
    does: "Clears TXM, the mode of transmission.\nAffects TXM.\n",
    example: " RTXM\n",
};

pub(crate) static STXM: Entry = Entry {
    name: "STXM",
    form: "STXM\n",
    does: "Sets TXM, the mode of transmission.\nAffects TXM.\n",
    example: " STXM\n",
};

pub(crate) static NEG: Entry = Entry {
    name: "NEG",
    form: "NEG\n",
    does: "Negates the accumulator.\nAffected by OVM. Affects C, OV.\n",
    example: " NEG\n",
};

pub(crate) static CALA: Entry = Entry {
    name: "CALA",
    form: "CALA\n",
    does: "Calls the routine at the address in the low half of the accumulator.\n",
    example: " CALA\n",
};

pub(crate) static BACC: Entry = Entry {
    name: "BACC",
    form: "BACC\n",
    does: "Goes on at the address in the low half of the accumulator.\n",
    example: " BACC\n",
};

pub(crate) static RET: Entry = Entry {
    name: "RET",
    form: "RET\n",
    does: "Returns from a routine, to the address on the top of the stack.\n",
    example: " RET\n",
};

pub(crate) static CMPL: Entry = Entry {
    name: "CMPL",
    form: "CMPL\n",
    does: "Inverts all bits of the accumulator.\n",
    example: " CMPL\n",
};

pub(crate) static RC: Entry = Entry {
    name: "RC",
    form: "RC\n",
    does: "Clears C.\nAffects C.\n",
    example: " RC\n",
};

pub(crate) static SC: Entry = Entry {
    name: "SC",
    form: "SC\n",
    does: "Sets C.\nAffects C.\n",
    example: " SC\n",
};

pub(crate) static RTC: Entry = Entry {
    name: "RTC",
    form: "RTC\n",
    does: "Clears TC.\nAffects TC.\n",
    example: " RTC\n",
};

pub(crate) static STC: Entry = Entry {
    name: "STC",
    form: "STC\n",
    does: "Sets TC.\nAffects TC.\n",
    example: " STC\n",
};

pub(crate) static ROL: Entry = Entry {
    name: "ROL",
    form: "ROL\n",
    does: "Rotates the accumulator left by one bit, through C.\nAffected by C. Affects C.\n",
    example: " ROL\n",
};

pub(crate) static ROR: Entry = Entry {
    name: "ROR",
    form: "ROR\n",
    does: "Rotates the accumulator right by one bit, through C.\nAffected by C. Affects C.\n",
    example: " ROR\n",
};

pub(crate) static RFSM: Entry = Entry {
    name: "RFSM",
    form: "RFSM\n",
    does: "Clears FSM, the mode of frame synchronisation.\nAffects FSM.\n",
    example: " RFSM\n",
};

pub(crate) static SFSM: Entry = Entry {
    name: "SFSM",
    form: "SFSM\n",
    does: "Sets FSM, the mode of frame synchronisation.\nAffects FSM.\n",
    example: " SFSM\n",
};

pub(crate) static RHM: Entry = Entry {
    name: "RHM",
    form: "RHM\n",
    does: "Clears HM, the mode of hold.\nAffects HM.\n",
    example: " RHM\n",
};

pub(crate) static SHM: Entry = Entry {
    name: "SHM",
    form: "SHM\n",
    does: "Sets HM, the mode of hold.\nAffects HM.\n",
    example: " SHM\n",
};

pub(crate) static SPM: Entry = Entry {
    name: "SPM",
    form: "SPM constant\n",
    does: "Sets PM, the shift of P: none (0), left by 1 (1), left by 4 (2), right by 6 (3).\nAffects PM.\n",
    example: " SPM 1\n",
};

pub(crate) static FORT: Entry = Entry {
    name: "FORT",
    form: "FORT constant\n",
    does: "Sets FO, the format of the serial port: 0 for 16 bits, 1 for 8.\nAffects FO.\n",
    example: " FORT 1\n",
};

pub(crate) static CMPR: Entry = Entry {
    name: "CMPR",
    form: "CMPR constant\n",
    does: "Sets TC where AR(ARP) is equal to AR0 (0), less (1), more (2) or not equal (3), and clears it where\nnot.\nAffects TC.\n",
    example: " CMPR 1\n",
};

pub(crate) static NORM: Entry = Entry {
    name: "NORM",
    form: "NORM [ind]\n",
    does: "Where bits 31 and 30 are equal and the accumulator is not 0, shifts it left by one bit, changes\nAR(ARP), by 1 without an operand, and clears TC; else sets TC.\nAffects TC.\n",
    example: " NORM\n NORM *-\n",
};

pub(crate) static ZAC: Entry = Entry {
    name: "ZAC",
    form: "ZAC\n",
    does: "Clears the accumulator.\n",
    example: " ZAC\n",
};

pub(crate) static NOP: Entry = Entry {
    name: "NOP",
    form: "NOP\n",
    does: "Does nothing.\n",
    example: " NOP\n",
};

pub(crate) static LARP: Entry = Entry {
    name: "LARP",
    form: "LARP ar\n",
    does: "Loads ARP, so that AR(ARP) is another auxiliary register.\nAffects ARP, ARB.\n",
    example: " LARP AR1\n",
};
