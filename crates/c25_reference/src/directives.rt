//! The entries of the directives, made of docs/manual/reference.md by docs/reference.py --write.

use crate::entry::Entry;

/// The directives that the assembler acts on.
pub(crate) static ASSEMBLY: [Entry; 17] = [
    Entry {
        name: ".text",
        form: ".text\n",
        does: "Goes on in section .text.\n",
        example: " .text\n",
    },
    Entry {
        name: ".data",
        form: ".data\n",
        does: "Goes on in section .data.\n",
        example: " .data\n .word 1\n",
    },
    Entry {
        name: ".sect",
        form: ".sect section\n",
        does: "Goes on in the section of this name.\n",
        example: " .sect \"vectors\"\n B 30h\n",
    },
    Entry {
        name: ".bss",
        form: ".bss name,words[,flag]\n",
        does: "Reserves words of section .bss for a name; with a flag that is not 0 they lie in one data page.\n",
        example: " .bss TAPS,16\n .bss STATE,8,1\n",
    },
    Entry {
        name: ".usect",
        form: "X .usect section,words\n",
        does: "Reserves words of a section without contents for its label.\n",
        example: "DELAY .usect \"delay\",4\n",
    },
    Entry {
        name: ".word",
        form: ".word value[,value]\n",
        does: "A word for each value, of which the low 16 bits are kept.\n",
        example: " .word 1,2\n",
    },
    Entry {
        name: ".int",
        form: ".int value[,value]\n",
        does: "A word for each value, of which the low 16 bits are kept.\n",
        example: " .int 1,2\n",
    },
    Entry {
        name: ".byte",
        form: ".byte value[,value]\n",
        does: "A word for each value, of which the low eight bits are kept.\n",
        example: " .byte 1,-1\n",
    },
    Entry {
        name: ".string",
        form: ".string \"text\"[,\"text\"]\n",
        does: "The characters of texts, two in a word, the first in its high half.\n",
        example: " .string \"Hello\"\n",
    },
    Entry {
        name: ".space",
        form: ".space bits\n",
        does: "Reserves bits of zeros, rounded up to whole words.\n",
        example: " .space 32\n",
    },
    Entry {
        name: ".set",
        form: "X .set value\n",
        does: "Gives its label a value.\n",
        example: "SET1 .set 5\n",
    },
    Entry {
        name: ".equ",
        form: "X .equ value\n",
        does: "Gives its label a value.\n",
        example: "EQU1 .equ 5\n",
    },
    Entry {
        name: ".global",
        form: ".global name[,name]\n",
        does: "Exports the names that this source defines, and imports the others.\n",
        example: " .global ENTRY2\nENTRY2 NOP\n",
    },
    Entry {
        name: ".ref",
        form: ".ref name[,name]\n",
        does: "Imports names that another source exports; a name that this source defines is exported.\n",
        example: " .ref OTHER\n",
    },
    Entry {
        name: ".def",
        form: ".def name[,name]\n",
        does: "Exports names that this source defines.\n",
        example: " .def ENTRY1\nENTRY1 NOP\n",
    },
    Entry {
        name: ".label",
        form: ".label name\n",
        does: "Gives a name the address at which the next word is loaded.\n",
        example: " .label LOADED\n",
    },
    Entry {
        name: ".mmregs",
        form: ".mmregs\n",
        does: "Defines DRR, DXR, TIM, PRD, IMR and GREG as 0 to 5.\n",
        example: " .mmregs\n LAC IMR\n",
    },
];

/// The directives that concern listings alone and have no effect.
pub(crate) static WITHOUT_EFFECT: [Entry; 13] = [
    Entry {
        name: ".title",
        form: ".title \"text\"\n",
        does: "Has no effect: it concerns listings alone.\n",
        example: " .title \"Filter\"\n",
    },
    Entry {
        name: ".list",
        form: ".list\n",
        does: "Has no effect: it concerns listings alone.\n",
        example: " .list\n",
    },
    Entry {
        name: ".nolist",
        form: ".nolist\n",
        does: "Has no effect: it concerns listings alone.\n",
        example: " .nolist\n",
    },
    Entry {
        name: ".page",
        form: ".page\n",
        does: "Has no effect: it concerns listings alone.\n",
        example: " .page\n",
    },
    Entry {
        name: ".width",
        form: ".width columns\n",
        does: "Has no effect: it concerns listings alone.\n",
        example: " .width 80\n",
    },
    Entry {
        name: ".length",
        form: ".length lines\n",
        does: "Has no effect: it concerns listings alone.\n",
        example: " .length 60\n",
    },
    Entry {
        name: ".option",
        form: ".option letter[,letter]\n",
        does: "Has no effect: it concerns listings alone.\n",
        example: " .option X\n",
    },
    Entry {
        name: ".mlist",
        form: ".mlist\n",
        does: "Has no effect: it concerns listings alone.\n",
        example: " .mlist\n",
    },
    Entry {
        name: ".mnolist",
        form: ".mnolist\n",
        does: "Has no effect: it concerns listings alone.\n",
        example: " .mnolist\n",
    },
    Entry {
        name: ".fclist",
        form: ".fclist\n",
        does: "Has no effect: it concerns listings alone.\n",
        example: " .fclist\n",
    },
    Entry {
        name: ".fcnolist",
        form: ".fcnolist\n",
        does: "Has no effect: it concerns listings alone.\n",
        example: " .fcnolist\n",
    },
    Entry {
        name: ".sslist",
        form: ".sslist\n",
        does: "Has no effect: it concerns listings alone.\n",
        example: " .sslist\n",
    },
    Entry {
        name: ".ssnolist",
        form: ".ssnolist\n",
        does: "Has no effect: it concerns listings alone.\n",
        example: " .ssnolist\n",
    },
];

/// The directives that expansion acts on.
pub(crate) static EXPANSION: [Entry; 15] = [
    Entry {
        name: ".if",
        form: ".if value\n",
        does: "Begins lines that are read where the value is not 0.\n",
        example: " .if 1\n NOP\n .endif\n",
    },
    Entry {
        name: ".elseif",
        form: ".elseif value\n",
        does: "Begins the lines that are read where the value is not 0 and no condition before it held.\n",
        example: " .if 0\n NOP\n .elseif 1\n ZAC\n .endif\n",
    },
    Entry {
        name: ".else",
        form: ".else\n",
        does: "Begins the lines that are read where no condition before it held.\n",
        example: " .if 0\n NOP\n .else\n ZAC\n .endif\n",
    },
    Entry {
        name: ".endif",
        form: ".endif\n",
        does: "Ends the lines of an .if.\n",
        example: " .if 1\n NOP\n .endif\n",
    },
    Entry {
        name: ".macro",
        form: "X .macro [parameter,..]\n",
        does: "Begins a macro of the name of its label.\n",
        example: "M2 .macro n\n LACK n\n .endm\n M2 3\n",
    },
    Entry {
        name: ".endm",
        form: ".endm\n",
        does: "Ends the lines of a macro.\n",
        example: "M1 .macro\n NOP\n .endm\n M1\n",
    },
    Entry {
        name: ".mexit",
        form: ".mexit\n",
        does: "Leaves the macro that it stands in.\n",
        example: "M3 .macro\n .mexit\n .endm\n M3\n",
    },
    Entry {
        name: ".loop",
        form: ".loop [count]\n",
        does: "Begins lines that are read as often as the count says, 1,024 times without one.\n",
        example: " .loop 2\n NOP\n .endloop\n",
    },
    Entry {
        name: ".break",
        form: ".break [value]\n",
        does: "Leaves the loop that it stands in, where the value is not 0 or there is none.\n",
        example: " .loop 3\n NOP\n .break 1\n .endloop\n",
    },
    Entry {
        name: ".endloop",
        form: ".endloop\n",
        does: "Ends the lines of a .loop.\n",
        example: " .loop 2\n NOP\n .endloop\n",
    },
    Entry {
        name: ".asg",
        form: ".asg text,name\n",
        does: "Gives a name a text, which stands in its place from the next line on.\n",
        example: " .asg 60h,GAIN\n LAC GAIN\n",
    },
    Entry {
        name: ".eval",
        form: ".eval value,name\n",
        does: "Gives a name the decimal digits of a value as its text.\n",
        example: " .eval 2*3,SIX\n LACK SIX\n",
    },
    Entry {
        name: ".copy",
        form: ".copy \"file\"\n",
        does: "Reads the lines of a file in place of this line.\n",
        example: "",
    },
    Entry {
        name: ".include",
        form: ".include \"file\"\n",
        does: "Reads the lines of a file in place of this line.\n",
        example: "",
    },
    Entry {
        name: ".end",
        form: ".end\n",
        does: "Ends the source; what follows is not read.\n",
        example: "",
    },
];
