//! The names as data, written by `make names`.

/// The lines of the header.
#[rattlefmt::skip]
pub static LINES: &str = "#define XK_VoidSymbol 0xffffff
#define XK_BackSpace 0xff08
#define XK_Tab 0xff09
#define XK_Linefeed 0xff0a
#define XK_Clear 0xff0b
#define XK_Return 0xff0d
#define XK_Pause 0xff13
#define XK_Scroll_Lock 0xff14
#define XK_Sys_Req 0xff15
#define XK_Escape 0xff1b
#define XK_Delete 0xffff
#define XK_Multi_key 0xff20
#define XK_Codeinput 0xff37
#define XK_SingleCandidate 0xff3c
#define XK_MultipleCandidate 0xff3d
#define XK_PreviousCandidate 0xff3e
#define XK_Kanji 0xff21
#define XK_Muhenkan 0xff22
#define XK_Henkan_Mode 0xff23
#define XK_Henkan 0xff23
#define XK_Romaji 0xff24
#define XK_Hiragana 0xff25
#define XK_Katakana 0xff26
#define XK_Hiragana_Katakana 0xff27
#define XK_Zenkaku 0xff28
#define XK_Hankaku 0xff29
#define XK_Zenkaku_Hankaku 0xff2a
#define XK_Touroku 0xff2b
#define XK_Massyo 0xff2c
#define XK_Kana_Lock 0xff2d
#define XK_Kana_Shift 0xff2e
#define XK_Eisu_Shift 0xff2f
#define XK_Eisu_toggle 0xff30
#define XK_Kanji_Bangou 0xff37
#define XK_Zen_Koho 0xff3d
#define XK_Mae_Koho 0xff3e
#define XK_Home 0xff50
#define XK_Left 0xff51
#define XK_Up 0xff52
#define XK_Right 0xff53
#define XK_Down 0xff54
#define XK_Prior 0xff55
#define XK_Page_Up 0xff55
#define XK_Next 0xff56
#define XK_Page_Down 0xff56
#define XK_End 0xff57
#define XK_Begin 0xff58
#define XK_Select 0xff60
#define XK_Print 0xff61
#define XK_Execute 0xff62
#define XK_Insert 0xff63
#define XK_Undo 0xff65
#define XK_Redo 0xff66
#define XK_Menu 0xff67
#define XK_Find 0xff68
#define XK_Cancel 0xff69
#define XK_Help 0xff6a
#define XK_Break 0xff6b
#define XK_Mode_switch 0xff7e
#define XK_script_switch 0xff7e
#define XK_Num_Lock 0xff7f
#define XK_KP_Space 0xff80
#define XK_KP_Tab 0xff89
#define XK_KP_Enter 0xff8d
#define XK_KP_F1 0xff91
#define XK_KP_F2 0xff92
#define XK_KP_F3 0xff93
#define XK_KP_F4 0xff94
#define XK_KP_Home 0xff95
#define XK_KP_Left 0xff96
#define XK_KP_Up 0xff97
#define XK_KP_Right 0xff98
#define XK_KP_Down 0xff99
#define XK_KP_Prior 0xff9a
#define XK_KP_Page_Up 0xff9a
#define XK_KP_Next 0xff9b
#define XK_KP_Page_Down 0xff9b
#define XK_KP_End 0xff9c
#define XK_KP_Begin 0xff9d
#define XK_KP_Insert 0xff9e
#define XK_KP_Delete 0xff9f
#define XK_KP_Equal 0xffbd
#define XK_KP_Multiply 0xffaa
#define XK_KP_Add 0xffab
#define XK_KP_Separator 0xffac
#define XK_KP_Subtract 0xffad
#define XK_KP_Decimal 0xffae
#define XK_KP_Divide 0xffaf
#define XK_KP_0 0xffb0
#define XK_KP_1 0xffb1
#define XK_KP_2 0xffb2
#define XK_KP_3 0xffb3
#define XK_KP_4 0xffb4
#define XK_KP_5 0xffb5
#define XK_KP_6 0xffb6
#define XK_KP_7 0xffb7
#define XK_KP_8 0xffb8
#define XK_KP_9 0xffb9
#define XK_F1 0xffbe
#define XK_F2 0xffbf
#define XK_F3 0xffc0
#define XK_F4 0xffc1
#define XK_F5 0xffc2
#define XK_F6 0xffc3
#define XK_F7 0xffc4
#define XK_F8 0xffc5
#define XK_F9 0xffc6
#define XK_F10 0xffc7
#define XK_F11 0xffc8
#define XK_L1 0xffc8
#define XK_F12 0xffc9
#define XK_L2 0xffc9
#define XK_F13 0xffca
#define XK_L3 0xffca
#define XK_F14 0xffcb
#define XK_L4 0xffcb
#define XK_F15 0xffcc
#define XK_L5 0xffcc
#define XK_F16 0xffcd
#define XK_L6 0xffcd
#define XK_F17 0xffce
#define XK_L7 0xffce
#define XK_F18 0xffcf
#define XK_L8 0xffcf
#define XK_F19 0xffd0
#define XK_L9 0xffd0
#define XK_F20 0xffd1
#define XK_L10 0xffd1
#define XK_F21 0xffd2
#define XK_R1 0xffd2
#define XK_F22 0xffd3
#define XK_R2 0xffd3
#define XK_F23 0xffd4
#define XK_R3 0xffd4
#define XK_F24 0xffd5
#define XK_R4 0xffd5
#define XK_F25 0xffd6
#define XK_R5 0xffd6
#define XK_F26 0xffd7
#define XK_R6 0xffd7
#define XK_F27 0xffd8
#define XK_R7 0xffd8
#define XK_F28 0xffd9
#define XK_R8 0xffd9
#define XK_F29 0xffda
#define XK_R9 0xffda
#define XK_F30 0xffdb
#define XK_R10 0xffdb
#define XK_F31 0xffdc
#define XK_R11 0xffdc
#define XK_F32 0xffdd
#define XK_R12 0xffdd
#define XK_F33 0xffde
#define XK_R13 0xffde
#define XK_F34 0xffdf
#define XK_R14 0xffdf
#define XK_F35 0xffe0
#define XK_R15 0xffe0
#define XK_Shift_L 0xffe1
#define XK_Shift_R 0xffe2
#define XK_Control_L 0xffe3
#define XK_Control_R 0xffe4
#define XK_Caps_Lock 0xffe5
#define XK_Shift_Lock 0xffe6
#define XK_Meta_L 0xffe7
#define XK_Meta_R 0xffe8
#define XK_Alt_L 0xffe9
#define XK_Alt_R 0xffea
#define XK_Super_L 0xffeb
#define XK_Super_R 0xffec
#define XK_Hyper_L 0xffed
#define XK_Hyper_R 0xffee
#define XK_ISO_Lock 0xfe01
#define XK_ISO_Level2_Latch 0xfe02
#define XK_ISO_Level3_Shift 0xfe03
#define XK_ISO_Level3_Latch 0xfe04
#define XK_ISO_Level3_Lock 0xfe05
#define XK_ISO_Level5_Shift 0xfe11
#define XK_ISO_Level5_Latch 0xfe12
#define XK_ISO_Level5_Lock 0xfe13
#define XK_ISO_Group_Shift 0xff7e
#define XK_ISO_Group_Latch 0xfe06
#define XK_ISO_Group_Lock 0xfe07
#define XK_ISO_Next_Group 0xfe08
#define XK_ISO_Next_Group_Lock 0xfe09
#define XK_ISO_Prev_Group 0xfe0a
#define XK_ISO_Prev_Group_Lock 0xfe0b
#define XK_ISO_First_Group 0xfe0c
#define XK_ISO_First_Group_Lock 0xfe0d
#define XK_ISO_Last_Group 0xfe0e
#define XK_ISO_Last_Group_Lock 0xfe0f
#define XK_ISO_Left_Tab 0xfe20
#define XK_ISO_Move_Line_Up 0xfe21
#define XK_ISO_Move_Line_Down 0xfe22
#define XK_ISO_Partial_Line_Up 0xfe23
#define XK_ISO_Partial_Line_Down 0xfe24
#define XK_ISO_Partial_Space_Left 0xfe25
#define XK_ISO_Partial_Space_Right 0xfe26
#define XK_ISO_Set_Margin_Left 0xfe27
#define XK_ISO_Set_Margin_Right 0xfe28
#define XK_ISO_Release_Margin_Left 0xfe29
#define XK_ISO_Release_Margin_Right 0xfe2a
#define XK_ISO_Release_Both_Margins 0xfe2b
#define XK_ISO_Fast_Cursor_Left 0xfe2c
#define XK_ISO_Fast_Cursor_Right 0xfe2d
#define XK_ISO_Fast_Cursor_Up 0xfe2e
#define XK_ISO_Fast_Cursor_Down 0xfe2f
#define XK_ISO_Continuous_Underline 0xfe30
#define XK_ISO_Discontinuous_Underline 0xfe31
#define XK_ISO_Emphasize 0xfe32
#define XK_ISO_Center_Object 0xfe33
#define XK_ISO_Enter 0xfe34
#define XK_dead_grave 0xfe50
#define XK_dead_acute 0xfe51
#define XK_dead_circumflex 0xfe52
#define XK_dead_tilde 0xfe53
#define XK_dead_perispomeni 0xfe53
#define XK_dead_macron 0xfe54
#define XK_dead_breve 0xfe55
#define XK_dead_abovedot 0xfe56
#define XK_dead_diaeresis 0xfe57
#define XK_dead_abovering 0xfe58
#define XK_dead_doubleacute 0xfe59
#define XK_dead_caron 0xfe5a
#define XK_dead_cedilla 0xfe5b
#define XK_dead_ogonek 0xfe5c
#define XK_dead_iota 0xfe5d
#define XK_dead_voiced_sound 0xfe5e
#define XK_dead_semivoiced_sound 0xfe5f
#define XK_dead_belowdot 0xfe60
#define XK_dead_hook 0xfe61
#define XK_dead_horn 0xfe62
#define XK_dead_stroke 0xfe63
#define XK_dead_abovecomma 0xfe64
#define XK_dead_psili 0xfe64
#define XK_dead_abovereversedcomma 0xfe65
#define XK_dead_dasia 0xfe65
#define XK_dead_doublegrave 0xfe66
#define XK_dead_belowring 0xfe67
#define XK_dead_belowmacron 0xfe68
#define XK_dead_belowcircumflex 0xfe69
#define XK_dead_belowtilde 0xfe6a
#define XK_dead_belowbreve 0xfe6b
#define XK_dead_belowdiaeresis 0xfe6c
#define XK_dead_invertedbreve 0xfe6d
#define XK_dead_belowcomma 0xfe6e
#define XK_dead_currency 0xfe6f
#define XK_dead_lowline 0xfe90
#define XK_dead_aboveverticalline 0xfe91
#define XK_dead_belowverticalline 0xfe92
#define XK_dead_longsolidusoverlay 0xfe93
#define XK_dead_a 0xfe80
#define XK_dead_A 0xfe81
#define XK_dead_e 0xfe82
#define XK_dead_E 0xfe83
#define XK_dead_i 0xfe84
#define XK_dead_I 0xfe85
#define XK_dead_o 0xfe86
#define XK_dead_O 0xfe87
#define XK_dead_u 0xfe88
#define XK_dead_U 0xfe89
#define XK_dead_small_schwa 0xfe8a
#define XK_dead_schwa 0xfe8a
#define XK_dead_capital_schwa 0xfe8b
#define XK_dead_SCHWA 0xfe8b
#define XK_dead_greek 0xfe8c
#define XK_dead_hamza 0xfe8d
#define XK_First_Virtual_Screen 0xfed0
#define XK_Prev_Virtual_Screen 0xfed1
#define XK_Next_Virtual_Screen 0xfed2
#define XK_Last_Virtual_Screen 0xfed4
#define XK_Terminate_Server 0xfed5
#define XK_AccessX_Enable 0xfe70
#define XK_AccessX_Feedback_Enable 0xfe71
#define XK_RepeatKeys_Enable 0xfe72
#define XK_SlowKeys_Enable 0xfe73
#define XK_BounceKeys_Enable 0xfe74
#define XK_StickyKeys_Enable 0xfe75
#define XK_MouseKeys_Enable 0xfe76
#define XK_MouseKeys_Accel_Enable 0xfe77
#define XK_Overlay1_Enable 0xfe78
#define XK_Overlay2_Enable 0xfe79
#define XK_AudibleBell_Enable 0xfe7a
#define XK_Pointer_Left 0xfee0
#define XK_Pointer_Right 0xfee1
#define XK_Pointer_Up 0xfee2
#define XK_Pointer_Down 0xfee3
#define XK_Pointer_UpLeft 0xfee4
#define XK_Pointer_UpRight 0xfee5
#define XK_Pointer_DownLeft 0xfee6
#define XK_Pointer_DownRight 0xfee7
#define XK_Pointer_Button_Dflt 0xfee8
#define XK_Pointer_Button1 0xfee9
#define XK_Pointer_Button2 0xfeea
#define XK_Pointer_Button3 0xfeeb
#define XK_Pointer_Button4 0xfeec
#define XK_Pointer_Button5 0xfeed
#define XK_Pointer_DblClick_Dflt 0xfeee
#define XK_Pointer_DblClick1 0xfeef
#define XK_Pointer_DblClick2 0xfef0
#define XK_Pointer_DblClick3 0xfef1
#define XK_Pointer_DblClick4 0xfef2
#define XK_Pointer_DblClick5 0xfef3
#define XK_Pointer_Drag_Dflt 0xfef4
#define XK_Pointer_Drag1 0xfef5
#define XK_Pointer_Drag2 0xfef6
#define XK_Pointer_Drag3 0xfef7
#define XK_Pointer_Drag4 0xfef8
#define XK_Pointer_Drag5 0xfefd
#define XK_Pointer_EnableKeys 0xfef9
#define XK_Pointer_Accelerate 0xfefa
#define XK_Pointer_DfltBtnNext 0xfefb
#define XK_Pointer_DfltBtnPrev 0xfefc
#define XK_ch 0xfea0
#define XK_Ch 0xfea1
#define XK_CH 0xfea2
#define XK_c_h 0xfea3
#define XK_C_h 0xfea4
#define XK_C_H 0xfea5
#define XK_3270_Duplicate 0xfd01
#define XK_3270_FieldMark 0xfd02
#define XK_3270_Right2 0xfd03
#define XK_3270_Left2 0xfd04
#define XK_3270_BackTab 0xfd05
#define XK_3270_EraseEOF 0xfd06
#define XK_3270_EraseInput 0xfd07
#define XK_3270_Reset 0xfd08
#define XK_3270_Quit 0xfd09
#define XK_3270_PA1 0xfd0a
#define XK_3270_PA2 0xfd0b
#define XK_3270_PA3 0xfd0c
#define XK_3270_Test 0xfd0d
#define XK_3270_Attn 0xfd0e
#define XK_3270_CursorBlink 0xfd0f
#define XK_3270_AltCursor 0xfd10
#define XK_3270_KeyClick 0xfd11
#define XK_3270_Jump 0xfd12
#define XK_3270_Ident 0xfd13
#define XK_3270_Rule 0xfd14
#define XK_3270_Copy 0xfd15
#define XK_3270_Play 0xfd16
#define XK_3270_Setup 0xfd17
#define XK_3270_Record 0xfd18
#define XK_3270_ChangeScreen 0xfd19
#define XK_3270_DeleteWord 0xfd1a
#define XK_3270_ExSelect 0xfd1b
#define XK_3270_CursorSelect 0xfd1c
#define XK_3270_PrintScreen 0xfd1d
#define XK_3270_Enter 0xfd1e
#define XK_space 0x20 /*U+0020*/
#define XK_exclam 0x21 /*U+0021*/
#define XK_quotedbl 0x22 /*U+0022*/
#define XK_numbersign 0x23 /*U+0023*/
#define XK_dollar 0x24 /*U+0024*/
#define XK_percent 0x25 /*U+0025*/
#define XK_ampersand 0x26 /*U+0026*/
#define XK_apostrophe 0x27 /*U+0027*/
#define XK_quoteright 0x27
#define XK_parenleft 0x28 /*U+0028*/
#define XK_parenright 0x29 /*U+0029*/
#define XK_asterisk 0x2a /*U+002A*/
#define XK_plus 0x2b /*U+002B*/
#define XK_comma 0x2c /*U+002C*/
#define XK_minus 0x2d /*U+002D*/
#define XK_period 0x2e /*U+002E*/
#define XK_slash 0x2f /*U+002F*/
#define XK_0 0x30 /*U+0030*/
#define XK_1 0x31 /*U+0031*/
#define XK_2 0x32 /*U+0032*/
#define XK_3 0x33 /*U+0033*/
#define XK_4 0x34 /*U+0034*/
#define XK_5 0x35 /*U+0035*/
#define XK_6 0x36 /*U+0036*/
#define XK_7 0x37 /*U+0037*/
#define XK_8 0x38 /*U+0038*/
#define XK_9 0x39 /*U+0039*/
#define XK_colon 0x3a /*U+003A*/
#define XK_semicolon 0x3b /*U+003B*/
#define XK_less 0x3c /*U+003C*/
#define XK_equal 0x3d /*U+003D*/
#define XK_greater 0x3e /*U+003E*/
#define XK_question 0x3f /*U+003F*/
#define XK_at 0x40 /*U+0040*/
#define XK_A 0x41 /*U+0041*/
#define XK_B 0x42 /*U+0042*/
#define XK_C 0x43 /*U+0043*/
#define XK_D 0x44 /*U+0044*/
#define XK_E 0x45 /*U+0045*/
#define XK_F 0x46 /*U+0046*/
#define XK_G 0x47 /*U+0047*/
#define XK_H 0x48 /*U+0048*/
#define XK_I 0x49 /*U+0049*/
#define XK_J 0x4a /*U+004A*/
#define XK_K 0x4b /*U+004B*/
#define XK_L 0x4c /*U+004C*/
#define XK_M 0x4d /*U+004D*/
#define XK_N 0x4e /*U+004E*/
#define XK_O 0x4f /*U+004F*/
#define XK_P 0x50 /*U+0050*/
#define XK_Q 0x51 /*U+0051*/
#define XK_R 0x52 /*U+0052*/
#define XK_S 0x53 /*U+0053*/
#define XK_T 0x54 /*U+0054*/
#define XK_U 0x55 /*U+0055*/
#define XK_V 0x56 /*U+0056*/
#define XK_W 0x57 /*U+0057*/
#define XK_X 0x58 /*U+0058*/
#define XK_Y 0x59 /*U+0059*/
#define XK_Z 0x5a /*U+005A*/
#define XK_bracketleft 0x5b /*U+005B*/
#define XK_backslash 0x5c /*U+005C*/
#define XK_bracketright 0x5d /*U+005D*/
#define XK_asciicircum 0x5e /*U+005E*/
#define XK_underscore 0x5f /*U+005F*/
#define XK_grave 0x60 /*U+0060*/
#define XK_quoteleft 0x60
#define XK_a 0x61 /*U+0061*/
#define XK_b 0x62 /*U+0062*/
#define XK_c 0x63 /*U+0063*/
#define XK_d 0x64 /*U+0064*/
#define XK_e 0x65 /*U+0065*/
#define XK_f 0x66 /*U+0066*/
#define XK_g 0x67 /*U+0067*/
#define XK_h 0x68 /*U+0068*/
#define XK_i 0x69 /*U+0069*/
#define XK_j 0x6a /*U+006A*/
#define XK_k 0x6b /*U+006B*/
#define XK_l 0x6c /*U+006C*/
#define XK_m 0x6d /*U+006D*/
#define XK_n 0x6e /*U+006E*/
#define XK_o 0x6f /*U+006F*/
#define XK_p 0x70 /*U+0070*/
#define XK_q 0x71 /*U+0071*/
#define XK_r 0x72 /*U+0072*/
#define XK_s 0x73 /*U+0073*/
#define XK_t 0x74 /*U+0074*/
#define XK_u 0x75 /*U+0075*/
#define XK_v 0x76 /*U+0076*/
#define XK_w 0x77 /*U+0077*/
#define XK_x 0x78 /*U+0078*/
#define XK_y 0x79 /*U+0079*/
#define XK_z 0x7a /*U+007A*/
#define XK_braceleft 0x7b /*U+007B*/
#define XK_bar 0x7c /*U+007C*/
#define XK_braceright 0x7d /*U+007D*/
#define XK_asciitilde 0x7e /*U+007E*/
#define XK_nobreakspace 0xa0 /*U+00A0*/
#define XK_exclamdown 0xa1 /*U+00A1*/
#define XK_cent 0xa2 /*U+00A2*/
#define XK_sterling 0xa3 /*U+00A3*/
#define XK_currency 0xa4 /*U+00A4*/
#define XK_yen 0xa5 /*U+00A5*/
#define XK_brokenbar 0xa6 /*U+00A6*/
#define XK_section 0xa7 /*U+00A7*/
#define XK_diaeresis 0xa8 /*U+00A8*/
#define XK_copyright 0xa9 /*U+00A9*/
#define XK_ordfeminine 0xaa /*U+00AA*/
#define XK_guillemotleft 0xab
#define XK_guillemetleft 0xab /*U+00AB*/
#define XK_notsign 0xac /*U+00AC*/
#define XK_hyphen 0xad /*U+00AD*/
#define XK_registered 0xae /*U+00AE*/
#define XK_macron 0xaf /*U+00AF*/
#define XK_degree 0xb0 /*U+00B0*/
#define XK_plusminus 0xb1 /*U+00B1*/
#define XK_twosuperior 0xb2 /*U+00B2*/
#define XK_threesuperior 0xb3 /*U+00B3*/
#define XK_acute 0xb4 /*U+00B4*/
#define XK_mu 0xb5 /*U+00B5*/
#define XK_paragraph 0xb6 /*U+00B6*/
#define XK_periodcentered 0xb7 /*U+00B7*/
#define XK_cedilla 0xb8 /*U+00B8*/
#define XK_onesuperior 0xb9 /*U+00B9*/
#define XK_masculine 0xba
#define XK_ordmasculine 0xba /*U+00BA*/
#define XK_guillemotright 0xbb
#define XK_guillemetright 0xbb /*U+00BB*/
#define XK_onequarter 0xbc /*U+00BC*/
#define XK_onehalf 0xbd /*U+00BD*/
#define XK_threequarters 0xbe /*U+00BE*/
#define XK_questiondown 0xbf /*U+00BF*/
#define XK_Agrave 0xc0 /*U+00C0*/
#define XK_Aacute 0xc1 /*U+00C1*/
#define XK_Acircumflex 0xc2 /*U+00C2*/
#define XK_Atilde 0xc3 /*U+00C3*/
#define XK_Adiaeresis 0xc4 /*U+00C4*/
#define XK_Aring 0xc5 /*U+00C5*/
#define XK_AE 0xc6 /*U+00C6*/
#define XK_Ccedilla 0xc7 /*U+00C7*/
#define XK_Egrave 0xc8 /*U+00C8*/
#define XK_Eacute 0xc9 /*U+00C9*/
#define XK_Ecircumflex 0xca /*U+00CA*/
#define XK_Ediaeresis 0xcb /*U+00CB*/
#define XK_Igrave 0xcc /*U+00CC*/
#define XK_Iacute 0xcd /*U+00CD*/
#define XK_Icircumflex 0xce /*U+00CE*/
#define XK_Idiaeresis 0xcf /*U+00CF*/
#define XK_ETH 0xd0 /*U+00D0*/
#define XK_Eth 0xd0
#define XK_Ntilde 0xd1 /*U+00D1*/
#define XK_Ograve 0xd2 /*U+00D2*/
#define XK_Oacute 0xd3 /*U+00D3*/
#define XK_Ocircumflex 0xd4 /*U+00D4*/
#define XK_Otilde 0xd5 /*U+00D5*/
#define XK_Odiaeresis 0xd6 /*U+00D6*/
#define XK_multiply 0xd7 /*U+00D7*/
#define XK_Oslash 0xd8 /*U+00D8*/
#define XK_Ooblique 0xd8
#define XK_Ugrave 0xd9 /*U+00D9*/
#define XK_Uacute 0xda /*U+00DA*/
#define XK_Ucircumflex 0xdb /*U+00DB*/
#define XK_Udiaeresis 0xdc /*U+00DC*/
#define XK_Yacute 0xdd /*U+00DD*/
#define XK_THORN 0xde /*U+00DE*/
#define XK_Thorn 0xde
#define XK_ssharp 0xdf /*U+00DF*/
#define XK_agrave 0xe0 /*U+00E0*/
#define XK_aacute 0xe1 /*U+00E1*/
#define XK_acircumflex 0xe2 /*U+00E2*/
#define XK_atilde 0xe3 /*U+00E3*/
#define XK_adiaeresis 0xe4 /*U+00E4*/
#define XK_aring 0xe5 /*U+00E5*/
#define XK_ae 0xe6 /*U+00E6*/
#define XK_ccedilla 0xe7 /*U+00E7*/
#define XK_egrave 0xe8 /*U+00E8*/
#define XK_eacute 0xe9 /*U+00E9*/
#define XK_ecircumflex 0xea /*U+00EA*/
#define XK_ediaeresis 0xeb /*U+00EB*/
#define XK_igrave 0xec /*U+00EC*/
#define XK_iacute 0xed /*U+00ED*/
#define XK_icircumflex 0xee /*U+00EE*/
#define XK_idiaeresis 0xef /*U+00EF*/
#define XK_eth 0xf0 /*U+00F0*/
#define XK_ntilde 0xf1 /*U+00F1*/
#define XK_ograve 0xf2 /*U+00F2*/
#define XK_oacute 0xf3 /*U+00F3*/
#define XK_ocircumflex 0xf4 /*U+00F4*/
#define XK_otilde 0xf5 /*U+00F5*/
#define XK_odiaeresis 0xf6 /*U+00F6*/
#define XK_division 0xf7 /*U+00F7*/
#define XK_oslash 0xf8 /*U+00F8*/
#define XK_ooblique 0xf8
#define XK_ugrave 0xf9 /*U+00F9*/
#define XK_uacute 0xfa /*U+00FA*/
#define XK_ucircumflex 0xfb /*U+00FB*/
#define XK_udiaeresis 0xfc /*U+00FC*/
#define XK_yacute 0xfd /*U+00FD*/
#define XK_thorn 0xfe /*U+00FE*/
#define XK_ydiaeresis 0xff /*U+00FF*/
#define XK_Aogonek 0x1a1 /*U+0104*/
#define XK_breve 0x1a2 /*U+02D8*/
#define XK_Lstroke 0x1a3 /*U+0141*/
#define XK_Lcaron 0x1a5 /*U+013D*/
#define XK_Sacute 0x1a6 /*U+015A*/
#define XK_Scaron 0x1a9 /*U+0160*/
#define XK_Scedilla 0x1aa /*U+015E*/
#define XK_Tcaron 0x1ab /*U+0164*/
#define XK_Zacute 0x1ac /*U+0179*/
#define XK_Zcaron 0x1ae /*U+017D*/
#define XK_Zabovedot 0x1af /*U+017B*/
#define XK_aogonek 0x1b1 /*U+0105*/
#define XK_ogonek 0x1b2 /*U+02DB*/
#define XK_lstroke 0x1b3 /*U+0142*/
#define XK_lcaron 0x1b5 /*U+013E*/
#define XK_sacute 0x1b6 /*U+015B*/
#define XK_caron 0x1b7 /*U+02C7*/
#define XK_scaron 0x1b9 /*U+0161*/
#define XK_scedilla 0x1ba /*U+015F*/
#define XK_tcaron 0x1bb /*U+0165*/
#define XK_zacute 0x1bc /*U+017A*/
#define XK_doubleacute 0x1bd /*U+02DD*/
#define XK_zcaron 0x1be /*U+017E*/
#define XK_zabovedot 0x1bf /*U+017C*/
#define XK_Racute 0x1c0 /*U+0154*/
#define XK_Abreve 0x1c3 /*U+0102*/
#define XK_Lacute 0x1c5 /*U+0139*/
#define XK_Cacute 0x1c6 /*U+0106*/
#define XK_Ccaron 0x1c8 /*U+010C*/
#define XK_Eogonek 0x1ca /*U+0118*/
#define XK_Ecaron 0x1cc /*U+011A*/
#define XK_Dcaron 0x1cf /*U+010E*/
#define XK_Dstroke 0x1d0 /*U+0110*/
#define XK_Nacute 0x1d1 /*U+0143*/
#define XK_Ncaron 0x1d2 /*U+0147*/
#define XK_Odoubleacute 0x1d5 /*U+0150*/
#define XK_Rcaron 0x1d8 /*U+0158*/
#define XK_Uring 0x1d9 /*U+016E*/
#define XK_Udoubleacute 0x1db /*U+0170*/
#define XK_Tcedilla 0x1de /*U+0162*/
#define XK_racute 0x1e0 /*U+0155*/
#define XK_abreve 0x1e3 /*U+0103*/
#define XK_lacute 0x1e5 /*U+013A*/
#define XK_cacute 0x1e6 /*U+0107*/
#define XK_ccaron 0x1e8 /*U+010D*/
#define XK_eogonek 0x1ea /*U+0119*/
#define XK_ecaron 0x1ec /*U+011B*/
#define XK_dcaron 0x1ef /*U+010F*/
#define XK_dstroke 0x1f0 /*U+0111*/
#define XK_nacute 0x1f1 /*U+0144*/
#define XK_ncaron 0x1f2 /*U+0148*/
#define XK_odoubleacute 0x1f5 /*U+0151*/
#define XK_rcaron 0x1f8 /*U+0159*/
#define XK_uring 0x1f9 /*U+016F*/
#define XK_udoubleacute 0x1fb /*U+0171*/
#define XK_tcedilla 0x1fe /*U+0163*/
#define XK_abovedot 0x1ff /*U+02D9*/
#define XK_Hstroke 0x2a1 /*U+0126*/
#define XK_Hcircumflex 0x2a6 /*U+0124*/
#define XK_Iabovedot 0x2a9 /*U+0130*/
#define XK_Gbreve 0x2ab /*U+011E*/
#define XK_Jcircumflex 0x2ac /*U+0134*/
#define XK_hstroke 0x2b1 /*U+0127*/
#define XK_hcircumflex 0x2b6 /*U+0125*/
#define XK_idotless 0x2b9 /*U+0131*/
#define XK_gbreve 0x2bb /*U+011F*/
#define XK_jcircumflex 0x2bc /*U+0135*/
#define XK_Cabovedot 0x2c5 /*U+010A*/
#define XK_Ccircumflex 0x2c6 /*U+0108*/
#define XK_Gabovedot 0x2d5 /*U+0120*/
#define XK_Gcircumflex 0x2d8 /*U+011C*/
#define XK_Ubreve 0x2dd /*U+016C*/
#define XK_Scircumflex 0x2de /*U+015C*/
#define XK_cabovedot 0x2e5 /*U+010B*/
#define XK_ccircumflex 0x2e6 /*U+0109*/
#define XK_gabovedot 0x2f5 /*U+0121*/
#define XK_gcircumflex 0x2f8 /*U+011D*/
#define XK_ubreve 0x2fd /*U+016D*/
#define XK_scircumflex 0x2fe /*U+015D*/
#define XK_kra 0x3a2 /*U+0138*/
#define XK_kappa 0x3a2
#define XK_Rcedilla 0x3a3 /*U+0156*/
#define XK_Itilde 0x3a5 /*U+0128*/
#define XK_Lcedilla 0x3a6 /*U+013B*/
#define XK_Emacron 0x3aa /*U+0112*/
#define XK_Gcedilla 0x3ab /*U+0122*/
#define XK_Tslash 0x3ac /*U+0166*/
#define XK_rcedilla 0x3b3 /*U+0157*/
#define XK_itilde 0x3b5 /*U+0129*/
#define XK_lcedilla 0x3b6 /*U+013C*/
#define XK_emacron 0x3ba /*U+0113*/
#define XK_gcedilla 0x3bb /*U+0123*/
#define XK_tslash 0x3bc /*U+0167*/
#define XK_ENG 0x3bd /*U+014A*/
#define XK_eng 0x3bf /*U+014B*/
#define XK_Amacron 0x3c0 /*U+0100*/
#define XK_Iogonek 0x3c7 /*U+012E*/
#define XK_Eabovedot 0x3cc /*U+0116*/
#define XK_Imacron 0x3cf /*U+012A*/
#define XK_Ncedilla 0x3d1 /*U+0145*/
#define XK_Omacron 0x3d2 /*U+014C*/
#define XK_Kcedilla 0x3d3 /*U+0136*/
#define XK_Uogonek 0x3d9 /*U+0172*/
#define XK_Utilde 0x3dd /*U+0168*/
#define XK_Umacron 0x3de /*U+016A*/
#define XK_amacron 0x3e0 /*U+0101*/
#define XK_iogonek 0x3e7 /*U+012F*/
#define XK_eabovedot 0x3ec /*U+0117*/
#define XK_imacron 0x3ef /*U+012B*/
#define XK_ncedilla 0x3f1 /*U+0146*/
#define XK_omacron 0x3f2 /*U+014D*/
#define XK_kcedilla 0x3f3 /*U+0137*/
#define XK_uogonek 0x3f9 /*U+0173*/
#define XK_utilde 0x3fd /*U+0169*/
#define XK_umacron 0x3fe /*U+016B*/
#define XK_Wcircumflex 0x1000174 /*U+0174*/
#define XK_wcircumflex 0x1000175 /*U+0175*/
#define XK_Ycircumflex 0x1000176 /*U+0176*/
#define XK_ycircumflex 0x1000177 /*U+0177*/
#define XK_Babovedot 0x1001e02 /*U+1E02*/
#define XK_babovedot 0x1001e03 /*U+1E03*/
#define XK_Dabovedot 0x1001e0a /*U+1E0A*/
#define XK_dabovedot 0x1001e0b /*U+1E0B*/
#define XK_Fabovedot 0x1001e1e /*U+1E1E*/
#define XK_fabovedot 0x1001e1f /*U+1E1F*/
#define XK_Mabovedot 0x1001e40 /*U+1E40*/
#define XK_mabovedot 0x1001e41 /*U+1E41*/
#define XK_Pabovedot 0x1001e56 /*U+1E56*/
#define XK_pabovedot 0x1001e57 /*U+1E57*/
#define XK_Sabovedot 0x1001e60 /*U+1E60*/
#define XK_sabovedot 0x1001e61 /*U+1E61*/
#define XK_Tabovedot 0x1001e6a /*U+1E6A*/
#define XK_tabovedot 0x1001e6b /*U+1E6B*/
#define XK_Wgrave 0x1001e80 /*U+1E80*/
#define XK_wgrave 0x1001e81 /*U+1E81*/
#define XK_Wacute 0x1001e82 /*U+1E82*/
#define XK_wacute 0x1001e83 /*U+1E83*/
#define XK_Wdiaeresis 0x1001e84 /*U+1E84*/
#define XK_wdiaeresis 0x1001e85 /*U+1E85*/
#define XK_Ygrave 0x1001ef2 /*U+1EF2*/
#define XK_ygrave 0x1001ef3 /*U+1EF3*/
#define XK_OE 0x13bc /*U+0152*/
#define XK_oe 0x13bd /*U+0153*/
#define XK_Ydiaeresis 0x13be /*U+0178*/
#define XK_overline 0x47e /*U+203E*/
#define XK_kana_fullstop 0x4a1 /*U+3002*/
#define XK_kana_openingbracket 0x4a2 /*U+300C*/
#define XK_kana_closingbracket 0x4a3 /*U+300D*/
#define XK_kana_comma 0x4a4 /*U+3001*/
#define XK_kana_conjunctive 0x4a5 /*U+30FB*/
#define XK_kana_middledot 0x4a5
#define XK_kana_WO 0x4a6 /*U+30F2*/
#define XK_kana_a 0x4a7 /*U+30A1*/
#define XK_kana_i 0x4a8 /*U+30A3*/
#define XK_kana_u 0x4a9 /*U+30A5*/
#define XK_kana_e 0x4aa /*U+30A7*/
#define XK_kana_o 0x4ab /*U+30A9*/
#define XK_kana_ya 0x4ac /*U+30E3*/
#define XK_kana_yu 0x4ad /*U+30E5*/
#define XK_kana_yo 0x4ae /*U+30E7*/
#define XK_kana_tsu 0x4af /*U+30C3*/
#define XK_kana_tu 0x4af
#define XK_prolongedsound 0x4b0 /*U+30FC*/
#define XK_kana_A 0x4b1 /*U+30A2*/
#define XK_kana_I 0x4b2 /*U+30A4*/
#define XK_kana_U 0x4b3 /*U+30A6*/
#define XK_kana_E 0x4b4 /*U+30A8*/
#define XK_kana_O 0x4b5 /*U+30AA*/
#define XK_kana_KA 0x4b6 /*U+30AB*/
#define XK_kana_KI 0x4b7 /*U+30AD*/
#define XK_kana_KU 0x4b8 /*U+30AF*/
#define XK_kana_KE 0x4b9 /*U+30B1*/
#define XK_kana_KO 0x4ba /*U+30B3*/
#define XK_kana_SA 0x4bb /*U+30B5*/
#define XK_kana_SHI 0x4bc /*U+30B7*/
#define XK_kana_SU 0x4bd /*U+30B9*/
#define XK_kana_SE 0x4be /*U+30BB*/
#define XK_kana_SO 0x4bf /*U+30BD*/
#define XK_kana_TA 0x4c0 /*U+30BF*/
#define XK_kana_CHI 0x4c1 /*U+30C1*/
#define XK_kana_TI 0x4c1
#define XK_kana_TSU 0x4c2 /*U+30C4*/
#define XK_kana_TU 0x4c2
#define XK_kana_TE 0x4c3 /*U+30C6*/
#define XK_kana_TO 0x4c4 /*U+30C8*/
#define XK_kana_NA 0x4c5 /*U+30CA*/
#define XK_kana_NI 0x4c6 /*U+30CB*/
#define XK_kana_NU 0x4c7 /*U+30CC*/
#define XK_kana_NE 0x4c8 /*U+30CD*/
#define XK_kana_NO 0x4c9 /*U+30CE*/
#define XK_kana_HA 0x4ca /*U+30CF*/
#define XK_kana_HI 0x4cb /*U+30D2*/
#define XK_kana_FU 0x4cc /*U+30D5*/
#define XK_kana_HU 0x4cc
#define XK_kana_HE 0x4cd /*U+30D8*/
#define XK_kana_HO 0x4ce /*U+30DB*/
#define XK_kana_MA 0x4cf /*U+30DE*/
#define XK_kana_MI 0x4d0 /*U+30DF*/
#define XK_kana_MU 0x4d1 /*U+30E0*/
#define XK_kana_ME 0x4d2 /*U+30E1*/
#define XK_kana_MO 0x4d3 /*U+30E2*/
#define XK_kana_YA 0x4d4 /*U+30E4*/
#define XK_kana_YU 0x4d5 /*U+30E6*/
#define XK_kana_YO 0x4d6 /*U+30E8*/
#define XK_kana_RA 0x4d7 /*U+30E9*/
#define XK_kana_RI 0x4d8 /*U+30EA*/
#define XK_kana_RU 0x4d9 /*U+30EB*/
#define XK_kana_RE 0x4da /*U+30EC*/
#define XK_kana_RO 0x4db /*U+30ED*/
#define XK_kana_WA 0x4dc /*U+30EF*/
#define XK_kana_N 0x4dd /*U+30F3*/
#define XK_voicedsound 0x4de /*U+309B*/
#define XK_semivoicedsound 0x4df /*U+309C*/
#define XK_kana_switch 0xff7e
#define XK_Farsi_0 0x10006f0 /*U+06F0*/
#define XK_Farsi_1 0x10006f1 /*U+06F1*/
#define XK_Farsi_2 0x10006f2 /*U+06F2*/
#define XK_Farsi_3 0x10006f3 /*U+06F3*/
#define XK_Farsi_4 0x10006f4 /*U+06F4*/
#define XK_Farsi_5 0x10006f5 /*U+06F5*/
#define XK_Farsi_6 0x10006f6 /*U+06F6*/
#define XK_Farsi_7 0x10006f7 /*U+06F7*/
#define XK_Farsi_8 0x10006f8 /*U+06F8*/
#define XK_Farsi_9 0x10006f9 /*U+06F9*/
#define XK_Arabic_percent 0x100066a /*U+066A*/
#define XK_Arabic_superscript_alef 0x1000670 /*U+0670*/
#define XK_Arabic_tteh 0x1000679 /*U+0679*/
#define XK_Arabic_peh 0x100067e /*U+067E*/
#define XK_Arabic_tcheh 0x1000686 /*U+0686*/
#define XK_Arabic_ddal 0x1000688 /*U+0688*/
#define XK_Arabic_rreh 0x1000691 /*U+0691*/
#define XK_Arabic_comma 0x5ac /*U+060C*/
#define XK_Arabic_fullstop 0x10006d4 /*U+06D4*/
#define XK_Arabic_0 0x1000660 /*U+0660*/
#define XK_Arabic_1 0x1000661 /*U+0661*/
#define XK_Arabic_2 0x1000662 /*U+0662*/
#define XK_Arabic_3 0x1000663 /*U+0663*/
#define XK_Arabic_4 0x1000664 /*U+0664*/
#define XK_Arabic_5 0x1000665 /*U+0665*/
#define XK_Arabic_6 0x1000666 /*U+0666*/
#define XK_Arabic_7 0x1000667 /*U+0667*/
#define XK_Arabic_8 0x1000668 /*U+0668*/
#define XK_Arabic_9 0x1000669 /*U+0669*/
#define XK_Arabic_semicolon 0x5bb /*U+061B*/
#define XK_Arabic_question_mark 0x5bf /*U+061F*/
#define XK_Arabic_hamza 0x5c1 /*U+0621*/
#define XK_Arabic_maddaonalef 0x5c2 /*U+0622*/
#define XK_Arabic_hamzaonalef 0x5c3 /*U+0623*/
#define XK_Arabic_hamzaonwaw 0x5c4 /*U+0624*/
#define XK_Arabic_hamzaunderalef 0x5c5 /*U+0625*/
#define XK_Arabic_hamzaonyeh 0x5c6 /*U+0626*/
#define XK_Arabic_alef 0x5c7 /*U+0627*/
#define XK_Arabic_beh 0x5c8 /*U+0628*/
#define XK_Arabic_tehmarbuta 0x5c9 /*U+0629*/
#define XK_Arabic_teh 0x5ca /*U+062A*/
#define XK_Arabic_theh 0x5cb /*U+062B*/
#define XK_Arabic_jeem 0x5cc /*U+062C*/
#define XK_Arabic_hah 0x5cd /*U+062D*/
#define XK_Arabic_khah 0x5ce /*U+062E*/
#define XK_Arabic_dal 0x5cf /*U+062F*/
#define XK_Arabic_thal 0x5d0 /*U+0630*/
#define XK_Arabic_ra 0x5d1 /*U+0631*/
#define XK_Arabic_zain 0x5d2 /*U+0632*/
#define XK_Arabic_seen 0x5d3 /*U+0633*/
#define XK_Arabic_sheen 0x5d4 /*U+0634*/
#define XK_Arabic_sad 0x5d5 /*U+0635*/
#define XK_Arabic_dad 0x5d6 /*U+0636*/
#define XK_Arabic_tah 0x5d7 /*U+0637*/
#define XK_Arabic_zah 0x5d8 /*U+0638*/
#define XK_Arabic_ain 0x5d9 /*U+0639*/
#define XK_Arabic_ghain 0x5da /*U+063A*/
#define XK_Arabic_tatweel 0x5e0 /*U+0640*/
#define XK_Arabic_feh 0x5e1 /*U+0641*/
#define XK_Arabic_qaf 0x5e2 /*U+0642*/
#define XK_Arabic_kaf 0x5e3 /*U+0643*/
#define XK_Arabic_lam 0x5e4 /*U+0644*/
#define XK_Arabic_meem 0x5e5 /*U+0645*/
#define XK_Arabic_noon 0x5e6 /*U+0646*/
#define XK_Arabic_ha 0x5e7 /*U+0647*/
#define XK_Arabic_heh 0x5e7
#define XK_Arabic_waw 0x5e8 /*U+0648*/
#define XK_Arabic_alefmaksura 0x5e9 /*U+0649*/
#define XK_Arabic_yeh 0x5ea /*U+064A*/
#define XK_Arabic_fathatan 0x5eb /*U+064B*/
#define XK_Arabic_dammatan 0x5ec /*U+064C*/
#define XK_Arabic_kasratan 0x5ed /*U+064D*/
#define XK_Arabic_fatha 0x5ee /*U+064E*/
#define XK_Arabic_damma 0x5ef /*U+064F*/
#define XK_Arabic_kasra 0x5f0 /*U+0650*/
#define XK_Arabic_shadda 0x5f1 /*U+0651*/
#define XK_Arabic_sukun 0x5f2 /*U+0652*/
#define XK_Arabic_madda_above 0x1000653 /*U+0653*/
#define XK_Arabic_hamza_above 0x1000654 /*U+0654*/
#define XK_Arabic_hamza_below 0x1000655 /*U+0655*/
#define XK_Arabic_jeh 0x1000698 /*U+0698*/
#define XK_Arabic_veh 0x10006a4 /*U+06A4*/
#define XK_Arabic_keheh 0x10006a9 /*U+06A9*/
#define XK_Arabic_gaf 0x10006af /*U+06AF*/
#define XK_Arabic_noon_ghunna 0x10006ba /*U+06BA*/
#define XK_Arabic_heh_doachashmee 0x10006be /*U+06BE*/
#define XK_Farsi_yeh 0x10006cc /*U+06CC*/
#define XK_Arabic_farsi_yeh 0x10006cc
#define XK_Arabic_yeh_baree 0x10006d2 /*U+06D2*/
#define XK_Arabic_heh_goal 0x10006c1 /*U+06C1*/
#define XK_Arabic_switch 0xff7e
#define XK_Cyrillic_GHE_bar 0x1000492 /*U+0492*/
#define XK_Cyrillic_ghe_bar 0x1000493 /*U+0493*/
#define XK_Cyrillic_ZHE_descender 0x1000496 /*U+0496*/
#define XK_Cyrillic_zhe_descender 0x1000497 /*U+0497*/
#define XK_Cyrillic_KA_descender 0x100049a /*U+049A*/
#define XK_Cyrillic_ka_descender 0x100049b /*U+049B*/
#define XK_Cyrillic_KA_vertstroke 0x100049c /*U+049C*/
#define XK_Cyrillic_ka_vertstroke 0x100049d /*U+049D*/
#define XK_Cyrillic_EN_descender 0x10004a2 /*U+04A2*/
#define XK_Cyrillic_en_descender 0x10004a3 /*U+04A3*/
#define XK_Cyrillic_U_straight 0x10004ae /*U+04AE*/
#define XK_Cyrillic_u_straight 0x10004af /*U+04AF*/
#define XK_Cyrillic_U_straight_bar 0x10004b0 /*U+04B0*/
#define XK_Cyrillic_u_straight_bar 0x10004b1 /*U+04B1*/
#define XK_Cyrillic_HA_descender 0x10004b2 /*U+04B2*/
#define XK_Cyrillic_ha_descender 0x10004b3 /*U+04B3*/
#define XK_Cyrillic_CHE_descender 0x10004b6 /*U+04B6*/
#define XK_Cyrillic_che_descender 0x10004b7 /*U+04B7*/
#define XK_Cyrillic_CHE_vertstroke 0x10004b8 /*U+04B8*/
#define XK_Cyrillic_che_vertstroke 0x10004b9 /*U+04B9*/
#define XK_Cyrillic_SHHA 0x10004ba /*U+04BA*/
#define XK_Cyrillic_shha 0x10004bb /*U+04BB*/
#define XK_Cyrillic_SCHWA 0x10004d8 /*U+04D8*/
#define XK_Cyrillic_schwa 0x10004d9 /*U+04D9*/
#define XK_Cyrillic_I_macron 0x10004e2 /*U+04E2*/
#define XK_Cyrillic_i_macron 0x10004e3 /*U+04E3*/
#define XK_Cyrillic_O_bar 0x10004e8 /*U+04E8*/
#define XK_Cyrillic_o_bar 0x10004e9 /*U+04E9*/
#define XK_Cyrillic_U_macron 0x10004ee /*U+04EE*/
#define XK_Cyrillic_u_macron 0x10004ef /*U+04EF*/
#define XK_Serbian_dje 0x6a1 /*U+0452*/
#define XK_Macedonia_gje 0x6a2 /*U+0453*/
#define XK_Cyrillic_io 0x6a3 /*U+0451*/
#define XK_Ukrainian_ie 0x6a4 /*U+0454*/
#define XK_Ukranian_je 0x6a4
#define XK_Macedonia_dse 0x6a5 /*U+0455*/
#define XK_Ukrainian_i 0x6a6 /*U+0456*/
#define XK_Ukranian_i 0x6a6
#define XK_Ukrainian_yi 0x6a7 /*U+0457*/
#define XK_Ukranian_yi 0x6a7
#define XK_Cyrillic_je 0x6a8 /*U+0458*/
#define XK_Serbian_je 0x6a8
#define XK_Cyrillic_lje 0x6a9 /*U+0459*/
#define XK_Serbian_lje 0x6a9
#define XK_Cyrillic_nje 0x6aa /*U+045A*/
#define XK_Serbian_nje 0x6aa
#define XK_Serbian_tshe 0x6ab /*U+045B*/
#define XK_Macedonia_kje 0x6ac /*U+045C*/
#define XK_Ukrainian_ghe_with_upturn 0x6ad /*U+0491*/
#define XK_Byelorussian_shortu 0x6ae /*U+045E*/
#define XK_Cyrillic_dzhe 0x6af /*U+045F*/
#define XK_Serbian_dze 0x6af
#define XK_numerosign 0x6b0 /*U+2116*/
#define XK_Serbian_DJE 0x6b1 /*U+0402*/
#define XK_Macedonia_GJE 0x6b2 /*U+0403*/
#define XK_Cyrillic_IO 0x6b3 /*U+0401*/
#define XK_Ukrainian_IE 0x6b4 /*U+0404*/
#define XK_Ukranian_JE 0x6b4
#define XK_Macedonia_DSE 0x6b5 /*U+0405*/
#define XK_Ukrainian_I 0x6b6 /*U+0406*/
#define XK_Ukranian_I 0x6b6
#define XK_Ukrainian_YI 0x6b7 /*U+0407*/
#define XK_Ukranian_YI 0x6b7
#define XK_Cyrillic_JE 0x6b8 /*U+0408*/
#define XK_Serbian_JE 0x6b8
#define XK_Cyrillic_LJE 0x6b9 /*U+0409*/
#define XK_Serbian_LJE 0x6b9
#define XK_Cyrillic_NJE 0x6ba /*U+040A*/
#define XK_Serbian_NJE 0x6ba
#define XK_Serbian_TSHE 0x6bb /*U+040B*/
#define XK_Macedonia_KJE 0x6bc /*U+040C*/
#define XK_Ukrainian_GHE_WITH_UPTURN 0x6bd /*U+0490*/
#define XK_Byelorussian_SHORTU 0x6be /*U+040E*/
#define XK_Cyrillic_DZHE 0x6bf /*U+040F*/
#define XK_Serbian_DZE 0x6bf
#define XK_Cyrillic_yu 0x6c0 /*U+044E*/
#define XK_Cyrillic_a 0x6c1 /*U+0430*/
#define XK_Cyrillic_be 0x6c2 /*U+0431*/
#define XK_Cyrillic_tse 0x6c3 /*U+0446*/
#define XK_Cyrillic_de 0x6c4 /*U+0434*/
#define XK_Cyrillic_ie 0x6c5 /*U+0435*/
#define XK_Cyrillic_ef 0x6c6 /*U+0444*/
#define XK_Cyrillic_ghe 0x6c7 /*U+0433*/
#define XK_Cyrillic_ha 0x6c8 /*U+0445*/
#define XK_Cyrillic_i 0x6c9 /*U+0438*/
#define XK_Cyrillic_shorti 0x6ca /*U+0439*/
#define XK_Cyrillic_ka 0x6cb /*U+043A*/
#define XK_Cyrillic_el 0x6cc /*U+043B*/
#define XK_Cyrillic_em 0x6cd /*U+043C*/
#define XK_Cyrillic_en 0x6ce /*U+043D*/
#define XK_Cyrillic_o 0x6cf /*U+043E*/
#define XK_Cyrillic_pe 0x6d0 /*U+043F*/
#define XK_Cyrillic_ya 0x6d1 /*U+044F*/
#define XK_Cyrillic_er 0x6d2 /*U+0440*/
#define XK_Cyrillic_es 0x6d3 /*U+0441*/
#define XK_Cyrillic_te 0x6d4 /*U+0442*/
#define XK_Cyrillic_u 0x6d5 /*U+0443*/
#define XK_Cyrillic_zhe 0x6d6 /*U+0436*/
#define XK_Cyrillic_ve 0x6d7 /*U+0432*/
#define XK_Cyrillic_softsign 0x6d8 /*U+044C*/
#define XK_Cyrillic_yeru 0x6d9 /*U+044B*/
#define XK_Cyrillic_ze 0x6da /*U+0437*/
#define XK_Cyrillic_sha 0x6db /*U+0448*/
#define XK_Cyrillic_e 0x6dc /*U+044D*/
#define XK_Cyrillic_shcha 0x6dd /*U+0449*/
#define XK_Cyrillic_che 0x6de /*U+0447*/
#define XK_Cyrillic_hardsign 0x6df /*U+044A*/
#define XK_Cyrillic_YU 0x6e0 /*U+042E*/
#define XK_Cyrillic_A 0x6e1 /*U+0410*/
#define XK_Cyrillic_BE 0x6e2 /*U+0411*/
#define XK_Cyrillic_TSE 0x6e3 /*U+0426*/
#define XK_Cyrillic_DE 0x6e4 /*U+0414*/
#define XK_Cyrillic_IE 0x6e5 /*U+0415*/
#define XK_Cyrillic_EF 0x6e6 /*U+0424*/
#define XK_Cyrillic_GHE 0x6e7 /*U+0413*/
#define XK_Cyrillic_HA 0x6e8 /*U+0425*/
#define XK_Cyrillic_I 0x6e9 /*U+0418*/
#define XK_Cyrillic_SHORTI 0x6ea /*U+0419*/
#define XK_Cyrillic_KA 0x6eb /*U+041A*/
#define XK_Cyrillic_EL 0x6ec /*U+041B*/
#define XK_Cyrillic_EM 0x6ed /*U+041C*/
#define XK_Cyrillic_EN 0x6ee /*U+041D*/
#define XK_Cyrillic_O 0x6ef /*U+041E*/
#define XK_Cyrillic_PE 0x6f0 /*U+041F*/
#define XK_Cyrillic_YA 0x6f1 /*U+042F*/
#define XK_Cyrillic_ER 0x6f2 /*U+0420*/
#define XK_Cyrillic_ES 0x6f3 /*U+0421*/
#define XK_Cyrillic_TE 0x6f4 /*U+0422*/
#define XK_Cyrillic_U 0x6f5 /*U+0423*/
#define XK_Cyrillic_ZHE 0x6f6 /*U+0416*/
#define XK_Cyrillic_VE 0x6f7 /*U+0412*/
#define XK_Cyrillic_SOFTSIGN 0x6f8 /*U+042C*/
#define XK_Cyrillic_YERU 0x6f9 /*U+042B*/
#define XK_Cyrillic_ZE 0x6fa /*U+0417*/
#define XK_Cyrillic_SHA 0x6fb /*U+0428*/
#define XK_Cyrillic_E 0x6fc /*U+042D*/
#define XK_Cyrillic_SHCHA 0x6fd /*U+0429*/
#define XK_Cyrillic_CHE 0x6fe /*U+0427*/
#define XK_Cyrillic_HARDSIGN 0x6ff /*U+042A*/
#define XK_Greek_ALPHAaccent 0x7a1 /*U+0386*/
#define XK_Greek_EPSILONaccent 0x7a2 /*U+0388*/
#define XK_Greek_ETAaccent 0x7a3 /*U+0389*/
#define XK_Greek_IOTAaccent 0x7a4 /*U+038A*/
#define XK_Greek_IOTAdieresis 0x7a5 /*U+03AA*/
#define XK_Greek_IOTAdiaeresis 0x7a5
#define XK_Greek_OMICRONaccent 0x7a7 /*U+038C*/
#define XK_Greek_UPSILONaccent 0x7a8 /*U+038E*/
#define XK_Greek_UPSILONdieresis 0x7a9 /*U+03AB*/
#define XK_Greek_OMEGAaccent 0x7ab /*U+038F*/
#define XK_Greek_accentdieresis 0x7ae /*U+0385*/
#define XK_Greek_horizbar 0x7af /*U+2015*/
#define XK_Greek_alphaaccent 0x7b1 /*U+03AC*/
#define XK_Greek_epsilonaccent 0x7b2 /*U+03AD*/
#define XK_Greek_etaaccent 0x7b3 /*U+03AE*/
#define XK_Greek_iotaaccent 0x7b4 /*U+03AF*/
#define XK_Greek_iotadieresis 0x7b5 /*U+03CA*/
#define XK_Greek_iotaaccentdieresis 0x7b6 /*U+0390*/
#define XK_Greek_omicronaccent 0x7b7 /*U+03CC*/
#define XK_Greek_upsilonaccent 0x7b8 /*U+03CD*/
#define XK_Greek_upsilondieresis 0x7b9 /*U+03CB*/
#define XK_Greek_upsilonaccentdieresis 0x7ba /*U+03B0*/
#define XK_Greek_omegaaccent 0x7bb /*U+03CE*/
#define XK_Greek_ALPHA 0x7c1 /*U+0391*/
#define XK_Greek_BETA 0x7c2 /*U+0392*/
#define XK_Greek_GAMMA 0x7c3 /*U+0393*/
#define XK_Greek_DELTA 0x7c4 /*U+0394*/
#define XK_Greek_EPSILON 0x7c5 /*U+0395*/
#define XK_Greek_ZETA 0x7c6 /*U+0396*/
#define XK_Greek_ETA 0x7c7 /*U+0397*/
#define XK_Greek_THETA 0x7c8 /*U+0398*/
#define XK_Greek_IOTA 0x7c9 /*U+0399*/
#define XK_Greek_KAPPA 0x7ca /*U+039A*/
#define XK_Greek_LAMDA 0x7cb /*U+039B*/
#define XK_Greek_LAMBDA 0x7cb
#define XK_Greek_MU 0x7cc /*U+039C*/
#define XK_Greek_NU 0x7cd /*U+039D*/
#define XK_Greek_XI 0x7ce /*U+039E*/
#define XK_Greek_OMICRON 0x7cf /*U+039F*/
#define XK_Greek_PI 0x7d0 /*U+03A0*/
#define XK_Greek_RHO 0x7d1 /*U+03A1*/
#define XK_Greek_SIGMA 0x7d2 /*U+03A3*/
#define XK_Greek_TAU 0x7d4 /*U+03A4*/
#define XK_Greek_UPSILON 0x7d5 /*U+03A5*/
#define XK_Greek_PHI 0x7d6 /*U+03A6*/
#define XK_Greek_CHI 0x7d7 /*U+03A7*/
#define XK_Greek_PSI 0x7d8 /*U+03A8*/
#define XK_Greek_OMEGA 0x7d9 /*U+03A9*/
#define XK_Greek_alpha 0x7e1 /*U+03B1*/
#define XK_Greek_beta 0x7e2 /*U+03B2*/
#define XK_Greek_gamma 0x7e3 /*U+03B3*/
#define XK_Greek_delta 0x7e4 /*U+03B4*/
#define XK_Greek_epsilon 0x7e5 /*U+03B5*/
#define XK_Greek_zeta 0x7e6 /*U+03B6*/
#define XK_Greek_eta 0x7e7 /*U+03B7*/
#define XK_Greek_theta 0x7e8 /*U+03B8*/
#define XK_Greek_iota 0x7e9 /*U+03B9*/
#define XK_Greek_kappa 0x7ea /*U+03BA*/
#define XK_Greek_lamda 0x7eb /*U+03BB*/
#define XK_Greek_lambda 0x7eb
#define XK_Greek_mu 0x7ec /*U+03BC*/
#define XK_Greek_nu 0x7ed /*U+03BD*/
#define XK_Greek_xi 0x7ee /*U+03BE*/
#define XK_Greek_omicron 0x7ef /*U+03BF*/
#define XK_Greek_pi 0x7f0 /*U+03C0*/
#define XK_Greek_rho 0x7f1 /*U+03C1*/
#define XK_Greek_sigma 0x7f2 /*U+03C3*/
#define XK_Greek_finalsmallsigma 0x7f3 /*U+03C2*/
#define XK_Greek_tau 0x7f4 /*U+03C4*/
#define XK_Greek_upsilon 0x7f5 /*U+03C5*/
#define XK_Greek_phi 0x7f6 /*U+03C6*/
#define XK_Greek_chi 0x7f7 /*U+03C7*/
#define XK_Greek_psi 0x7f8 /*U+03C8*/
#define XK_Greek_omega 0x7f9 /*U+03C9*/
#define XK_Greek_switch 0xff7e
#define XK_leftradical 0x8a1 /*U+23B7*/
#define XK_topleftradical 0x8a2 /*U+250C*/
#define XK_horizconnector 0x8a3 /*U+2500*/
#define XK_topintegral 0x8a4 /*U+2320*/
#define XK_botintegral 0x8a5 /*U+2321*/
#define XK_vertconnector 0x8a6 /*U+2502*/
#define XK_topleftsqbracket 0x8a7 /*U+23A1*/
#define XK_botleftsqbracket 0x8a8 /*U+23A3*/
#define XK_toprightsqbracket 0x8a9 /*U+23A4*/
#define XK_botrightsqbracket 0x8aa /*U+23A6*/
#define XK_topleftparens 0x8ab /*U+239B*/
#define XK_botleftparens 0x8ac /*U+239D*/
#define XK_toprightparens 0x8ad /*U+239E*/
#define XK_botrightparens 0x8ae /*U+23A0*/
#define XK_leftmiddlecurlybrace 0x8af /*U+23A8*/
#define XK_rightmiddlecurlybrace 0x8b0 /*U+23AC*/
#define XK_topleftsummation 0x8b1
#define XK_botleftsummation 0x8b2
#define XK_topvertsummationconnector 0x8b3
#define XK_botvertsummationconnector 0x8b4
#define XK_toprightsummation 0x8b5
#define XK_botrightsummation 0x8b6
#define XK_rightmiddlesummation 0x8b7
#define XK_lessthanequal 0x8bc /*U+2264*/
#define XK_notequal 0x8bd /*U+2260*/
#define XK_greaterthanequal 0x8be /*U+2265*/
#define XK_integral 0x8bf /*U+222B*/
#define XK_therefore 0x8c0 /*U+2234*/
#define XK_variation 0x8c1 /*U+221D*/
#define XK_infinity 0x8c2 /*U+221E*/
#define XK_nabla 0x8c5 /*U+2207*/
#define XK_approximate 0x8c8 /*U+223C*/
#define XK_similarequal 0x8c9 /*U+2243*/
#define XK_ifonlyif 0x8cd /*U+21D4*/
#define XK_implies 0x8ce /*U+21D2*/
#define XK_identical 0x8cf /*U+2261*/
#define XK_radical 0x8d6 /*U+221A*/
#define XK_includedin 0x8da /*U+2282*/
#define XK_includes 0x8db /*U+2283*/
#define XK_intersection 0x8dc /*U+2229*/
#define XK_union 0x8dd /*U+222A*/
#define XK_logicaland 0x8de /*U+2227*/
#define XK_logicalor 0x8df /*U+2228*/
#define XK_partialderivative 0x8ef /*U+2202*/
#define XK_function 0x8f6 /*U+0192*/
#define XK_leftarrow 0x8fb /*U+2190*/
#define XK_uparrow 0x8fc /*U+2191*/
#define XK_rightarrow 0x8fd /*U+2192*/
#define XK_downarrow 0x8fe /*U+2193*/
#define XK_blank 0x9df
#define XK_soliddiamond 0x9e0 /*U+25C6*/
#define XK_checkerboard 0x9e1 /*U+2592*/
#define XK_ht 0x9e2 /*U+2409*/
#define XK_ff 0x9e3 /*U+240C*/
#define XK_cr 0x9e4 /*U+240D*/
#define XK_lf 0x9e5 /*U+240A*/
#define XK_nl 0x9e8 /*U+2424*/
#define XK_vt 0x9e9 /*U+240B*/
#define XK_lowrightcorner 0x9ea /*U+2518*/
#define XK_uprightcorner 0x9eb /*U+2510*/
#define XK_upleftcorner 0x9ec /*U+250C*/
#define XK_lowleftcorner 0x9ed /*U+2514*/
#define XK_crossinglines 0x9ee /*U+253C*/
#define XK_horizlinescan1 0x9ef /*U+23BA*/
#define XK_horizlinescan3 0x9f0 /*U+23BB*/
#define XK_horizlinescan5 0x9f1 /*U+2500*/
#define XK_horizlinescan7 0x9f2 /*U+23BC*/
#define XK_horizlinescan9 0x9f3 /*U+23BD*/
#define XK_leftt 0x9f4 /*U+251C*/
#define XK_rightt 0x9f5 /*U+2524*/
#define XK_bott 0x9f6 /*U+2534*/
#define XK_topt 0x9f7 /*U+252C*/
#define XK_vertbar 0x9f8 /*U+2502*/
#define XK_emspace 0xaa1 /*U+2003*/
#define XK_enspace 0xaa2 /*U+2002*/
#define XK_em3space 0xaa3 /*U+2004*/
#define XK_em4space 0xaa4 /*U+2005*/
#define XK_digitspace 0xaa5 /*U+2007*/
#define XK_punctspace 0xaa6 /*U+2008*/
#define XK_thinspace 0xaa7 /*U+2009*/
#define XK_hairspace 0xaa8 /*U+200A*/
#define XK_emdash 0xaa9 /*U+2014*/
#define XK_endash 0xaaa /*U+2013*/
#define XK_signifblank 0xaac /*U+2423*/
#define XK_ellipsis 0xaae /*U+2026*/
#define XK_doubbaselinedot 0xaaf /*U+2025*/
#define XK_onethird 0xab0 /*U+2153*/
#define XK_twothirds 0xab1 /*U+2154*/
#define XK_onefifth 0xab2 /*U+2155*/
#define XK_twofifths 0xab3 /*U+2156*/
#define XK_threefifths 0xab4 /*U+2157*/
#define XK_fourfifths 0xab5 /*U+2158*/
#define XK_onesixth 0xab6 /*U+2159*/
#define XK_fivesixths 0xab7 /*U+215A*/
#define XK_careof 0xab8 /*U+2105*/
#define XK_figdash 0xabb /*U+2012*/
#define XK_leftanglebracket 0xabc /*U+2329*/
#define XK_decimalpoint 0xabd /*U+002E*/
#define XK_rightanglebracket 0xabe /*U+232A*/
#define XK_marker 0xabf
#define XK_oneeighth 0xac3 /*U+215B*/
#define XK_threeeighths 0xac4 /*U+215C*/
#define XK_fiveeighths 0xac5 /*U+215D*/
#define XK_seveneighths 0xac6 /*U+215E*/
#define XK_trademark 0xac9 /*U+2122*/
#define XK_signaturemark 0xaca /*U+2613*/
#define XK_trademarkincircle 0xacb
#define XK_leftopentriangle 0xacc /*U+25C1*/
#define XK_rightopentriangle 0xacd /*U+25B7*/
#define XK_emopencircle 0xace /*U+25CB*/
#define XK_emopenrectangle 0xacf /*U+25AF*/
#define XK_leftsinglequotemark 0xad0 /*U+2018*/
#define XK_rightsinglequotemark 0xad1 /*U+2019*/
#define XK_leftdoublequotemark 0xad2 /*U+201C*/
#define XK_rightdoublequotemark 0xad3 /*U+201D*/
#define XK_prescription 0xad4 /*U+211E*/
#define XK_permille 0xad5 /*U+2030*/
#define XK_minutes 0xad6 /*U+2032*/
#define XK_seconds 0xad7 /*U+2033*/
#define XK_latincross 0xad9 /*U+271D*/
#define XK_hexagram 0xada
#define XK_filledrectbullet 0xadb /*U+25AC*/
#define XK_filledlefttribullet 0xadc /*U+25C0*/
#define XK_filledrighttribullet 0xadd /*U+25B6*/
#define XK_emfilledcircle 0xade /*U+25CF*/
#define XK_emfilledrect 0xadf /*U+25AE*/
#define XK_enopencircbullet 0xae0 /*U+25E6*/
#define XK_enopensquarebullet 0xae1 /*U+25AB*/
#define XK_openrectbullet 0xae2 /*U+25AD*/
#define XK_opentribulletup 0xae3 /*U+25B3*/
#define XK_opentribulletdown 0xae4 /*U+25BD*/
#define XK_openstar 0xae5 /*U+2606*/
#define XK_enfilledcircbullet 0xae6 /*U+2022*/
#define XK_enfilledsqbullet 0xae7 /*U+25AA*/
#define XK_filledtribulletup 0xae8 /*U+25B2*/
#define XK_filledtribulletdown 0xae9 /*U+25BC*/
#define XK_leftpointer 0xaea /*U+261C*/
#define XK_rightpointer 0xaeb /*U+261E*/
#define XK_club 0xaec /*U+2663*/
#define XK_diamond 0xaed /*U+2666*/
#define XK_heart 0xaee /*U+2665*/
#define XK_maltesecross 0xaf0 /*U+2720*/
#define XK_dagger 0xaf1 /*U+2020*/
#define XK_doubledagger 0xaf2 /*U+2021*/
#define XK_checkmark 0xaf3 /*U+2713*/
#define XK_ballotcross 0xaf4 /*U+2717*/
#define XK_musicalsharp 0xaf5 /*U+266F*/
#define XK_musicalflat 0xaf6 /*U+266D*/
#define XK_malesymbol 0xaf7 /*U+2642*/
#define XK_femalesymbol 0xaf8 /*U+2640*/
#define XK_telephone 0xaf9 /*U+260E*/
#define XK_telephonerecorder 0xafa /*U+2315*/
#define XK_phonographcopyright 0xafb /*U+2117*/
#define XK_caret 0xafc /*U+2038*/
#define XK_singlelowquotemark 0xafd /*U+201A*/
#define XK_doublelowquotemark 0xafe /*U+201E*/
#define XK_cursor 0xaff
#define XK_leftcaret 0xba3 /*U+003C*/
#define XK_rightcaret 0xba6 /*U+003E*/
#define XK_downcaret 0xba8 /*U+2228*/
#define XK_upcaret 0xba9 /*U+2227*/
#define XK_overbar 0xbc0 /*U+00AF*/
#define XK_downtack 0xbc2 /*U+22A4*/
#define XK_upshoe 0xbc3 /*U+2229*/
#define XK_downstile 0xbc4 /*U+230A*/
#define XK_underbar 0xbc6 /*U+005F*/
#define XK_jot 0xbca /*U+2218*/
#define XK_quad 0xbcc /*U+2395*/
#define XK_uptack 0xbce /*U+22A5*/
#define XK_circle 0xbcf /*U+25CB*/
#define XK_upstile 0xbd3 /*U+2308*/
#define XK_downshoe 0xbd6 /*U+222A*/
#define XK_rightshoe 0xbd8 /*U+2283*/
#define XK_leftshoe 0xbda /*U+2282*/
#define XK_lefttack 0xbdc /*U+22A3*/
#define XK_righttack 0xbfc /*U+22A2*/
#define XK_hebrew_doublelowline 0xcdf /*U+2017*/
#define XK_hebrew_aleph 0xce0 /*U+05D0*/
#define XK_hebrew_bet 0xce1 /*U+05D1*/
#define XK_hebrew_beth 0xce1
#define XK_hebrew_gimel 0xce2 /*U+05D2*/
#define XK_hebrew_gimmel 0xce2
#define XK_hebrew_dalet 0xce3 /*U+05D3*/
#define XK_hebrew_daleth 0xce3
#define XK_hebrew_he 0xce4 /*U+05D4*/
#define XK_hebrew_waw 0xce5 /*U+05D5*/
#define XK_hebrew_zain 0xce6 /*U+05D6*/
#define XK_hebrew_zayin 0xce6
#define XK_hebrew_chet 0xce7 /*U+05D7*/
#define XK_hebrew_het 0xce7
#define XK_hebrew_tet 0xce8 /*U+05D8*/
#define XK_hebrew_teth 0xce8
#define XK_hebrew_yod 0xce9 /*U+05D9*/
#define XK_hebrew_finalkaph 0xcea /*U+05DA*/
#define XK_hebrew_kaph 0xceb /*U+05DB*/
#define XK_hebrew_lamed 0xcec /*U+05DC*/
#define XK_hebrew_finalmem 0xced /*U+05DD*/
#define XK_hebrew_mem 0xcee /*U+05DE*/
#define XK_hebrew_finalnun 0xcef /*U+05DF*/
#define XK_hebrew_nun 0xcf0 /*U+05E0*/
#define XK_hebrew_samech 0xcf1 /*U+05E1*/
#define XK_hebrew_samekh 0xcf1
#define XK_hebrew_ayin 0xcf2 /*U+05E2*/
#define XK_hebrew_finalpe 0xcf3 /*U+05E3*/
#define XK_hebrew_pe 0xcf4 /*U+05E4*/
#define XK_hebrew_finalzade 0xcf5 /*U+05E5*/
#define XK_hebrew_finalzadi 0xcf5
#define XK_hebrew_zade 0xcf6 /*U+05E6*/
#define XK_hebrew_zadi 0xcf6
#define XK_hebrew_qoph 0xcf7 /*U+05E7*/
#define XK_hebrew_kuf 0xcf7
#define XK_hebrew_resh 0xcf8 /*U+05E8*/
#define XK_hebrew_shin 0xcf9 /*U+05E9*/
#define XK_hebrew_taw 0xcfa /*U+05EA*/
#define XK_hebrew_taf 0xcfa
#define XK_Hebrew_switch 0xff7e
#define XK_Thai_kokai 0xda1 /*U+0E01*/
#define XK_Thai_khokhai 0xda2 /*U+0E02*/
#define XK_Thai_khokhuat 0xda3 /*U+0E03*/
#define XK_Thai_khokhwai 0xda4 /*U+0E04*/
#define XK_Thai_khokhon 0xda5 /*U+0E05*/
#define XK_Thai_khorakhang 0xda6 /*U+0E06*/
#define XK_Thai_ngongu 0xda7 /*U+0E07*/
#define XK_Thai_chochan 0xda8 /*U+0E08*/
#define XK_Thai_choching 0xda9 /*U+0E09*/
#define XK_Thai_chochang 0xdaa /*U+0E0A*/
#define XK_Thai_soso 0xdab /*U+0E0B*/
#define XK_Thai_chochoe 0xdac /*U+0E0C*/
#define XK_Thai_yoying 0xdad /*U+0E0D*/
#define XK_Thai_dochada 0xdae /*U+0E0E*/
#define XK_Thai_topatak 0xdaf /*U+0E0F*/
#define XK_Thai_thothan 0xdb0 /*U+0E10*/
#define XK_Thai_thonangmontho 0xdb1 /*U+0E11*/
#define XK_Thai_thophuthao 0xdb2 /*U+0E12*/
#define XK_Thai_nonen 0xdb3 /*U+0E13*/
#define XK_Thai_dodek 0xdb4 /*U+0E14*/
#define XK_Thai_totao 0xdb5 /*U+0E15*/
#define XK_Thai_thothung 0xdb6 /*U+0E16*/
#define XK_Thai_thothahan 0xdb7 /*U+0E17*/
#define XK_Thai_thothong 0xdb8 /*U+0E18*/
#define XK_Thai_nonu 0xdb9 /*U+0E19*/
#define XK_Thai_bobaimai 0xdba /*U+0E1A*/
#define XK_Thai_popla 0xdbb /*U+0E1B*/
#define XK_Thai_phophung 0xdbc /*U+0E1C*/
#define XK_Thai_fofa 0xdbd /*U+0E1D*/
#define XK_Thai_phophan 0xdbe /*U+0E1E*/
#define XK_Thai_fofan 0xdbf /*U+0E1F*/
#define XK_Thai_phosamphao 0xdc0 /*U+0E20*/
#define XK_Thai_moma 0xdc1 /*U+0E21*/
#define XK_Thai_yoyak 0xdc2 /*U+0E22*/
#define XK_Thai_rorua 0xdc3 /*U+0E23*/
#define XK_Thai_ru 0xdc4 /*U+0E24*/
#define XK_Thai_loling 0xdc5 /*U+0E25*/
#define XK_Thai_lu 0xdc6 /*U+0E26*/
#define XK_Thai_wowaen 0xdc7 /*U+0E27*/
#define XK_Thai_sosala 0xdc8 /*U+0E28*/
#define XK_Thai_sorusi 0xdc9 /*U+0E29*/
#define XK_Thai_sosua 0xdca /*U+0E2A*/
#define XK_Thai_hohip 0xdcb /*U+0E2B*/
#define XK_Thai_lochula 0xdcc /*U+0E2C*/
#define XK_Thai_oang 0xdcd /*U+0E2D*/
#define XK_Thai_honokhuk 0xdce /*U+0E2E*/
#define XK_Thai_paiyannoi 0xdcf /*U+0E2F*/
#define XK_Thai_saraa 0xdd0 /*U+0E30*/
#define XK_Thai_maihanakat 0xdd1 /*U+0E31*/
#define XK_Thai_saraaa 0xdd2 /*U+0E32*/
#define XK_Thai_saraam 0xdd3 /*U+0E33*/
#define XK_Thai_sarai 0xdd4 /*U+0E34*/
#define XK_Thai_saraii 0xdd5 /*U+0E35*/
#define XK_Thai_saraue 0xdd6 /*U+0E36*/
#define XK_Thai_sarauee 0xdd7 /*U+0E37*/
#define XK_Thai_sarau 0xdd8 /*U+0E38*/
#define XK_Thai_sarauu 0xdd9 /*U+0E39*/
#define XK_Thai_phinthu 0xdda /*U+0E3A*/
#define XK_Thai_maihanakat_maitho 0xdde /*U+0E3E*/
#define XK_Thai_baht 0xddf /*U+0E3F*/
#define XK_Thai_sarae 0xde0 /*U+0E40*/
#define XK_Thai_saraae 0xde1 /*U+0E41*/
#define XK_Thai_sarao 0xde2 /*U+0E42*/
#define XK_Thai_saraaimaimuan 0xde3 /*U+0E43*/
#define XK_Thai_saraaimaimalai 0xde4 /*U+0E44*/
#define XK_Thai_lakkhangyao 0xde5 /*U+0E45*/
#define XK_Thai_maiyamok 0xde6 /*U+0E46*/
#define XK_Thai_maitaikhu 0xde7 /*U+0E47*/
#define XK_Thai_maiek 0xde8 /*U+0E48*/
#define XK_Thai_maitho 0xde9 /*U+0E49*/
#define XK_Thai_maitri 0xdea /*U+0E4A*/
#define XK_Thai_maichattawa 0xdeb /*U+0E4B*/
#define XK_Thai_thanthakhat 0xdec /*U+0E4C*/
#define XK_Thai_nikhahit 0xded /*U+0E4D*/
#define XK_Thai_leksun 0xdf0 /*U+0E50*/
#define XK_Thai_leknung 0xdf1 /*U+0E51*/
#define XK_Thai_leksong 0xdf2 /*U+0E52*/
#define XK_Thai_leksam 0xdf3 /*U+0E53*/
#define XK_Thai_leksi 0xdf4 /*U+0E54*/
#define XK_Thai_lekha 0xdf5 /*U+0E55*/
#define XK_Thai_lekhok 0xdf6 /*U+0E56*/
#define XK_Thai_lekchet 0xdf7 /*U+0E57*/
#define XK_Thai_lekpaet 0xdf8 /*U+0E58*/
#define XK_Thai_lekkao 0xdf9 /*U+0E59*/
#define XK_Hangul 0xff31
#define XK_Hangul_Start 0xff32
#define XK_Hangul_End 0xff33
#define XK_Hangul_Hanja 0xff34
#define XK_Hangul_Jamo 0xff35
#define XK_Hangul_Romaja 0xff36
#define XK_Hangul_Codeinput 0xff37
#define XK_Hangul_Jeonja 0xff38
#define XK_Hangul_Banja 0xff39
#define XK_Hangul_PreHanja 0xff3a
#define XK_Hangul_PostHanja 0xff3b
#define XK_Hangul_SingleCandidate 0xff3c
#define XK_Hangul_MultipleCandidate 0xff3d
#define XK_Hangul_PreviousCandidate 0xff3e
#define XK_Hangul_Special 0xff3f
#define XK_Hangul_switch 0xff7e
#define XK_Hangul_Kiyeog 0xea1 /*U+3131*/
#define XK_Hangul_SsangKiyeog 0xea2 /*U+3132*/
#define XK_Hangul_KiyeogSios 0xea3 /*U+3133*/
#define XK_Hangul_Nieun 0xea4 /*U+3134*/
#define XK_Hangul_NieunJieuj 0xea5 /*U+3135*/
#define XK_Hangul_NieunHieuh 0xea6 /*U+3136*/
#define XK_Hangul_Dikeud 0xea7 /*U+3137*/
#define XK_Hangul_SsangDikeud 0xea8 /*U+3138*/
#define XK_Hangul_Rieul 0xea9 /*U+3139*/
#define XK_Hangul_RieulKiyeog 0xeaa /*U+313A*/
#define XK_Hangul_RieulMieum 0xeab /*U+313B*/
#define XK_Hangul_RieulPieub 0xeac /*U+313C*/
#define XK_Hangul_RieulSios 0xead /*U+313D*/
#define XK_Hangul_RieulTieut 0xeae /*U+313E*/
#define XK_Hangul_RieulPhieuf 0xeaf /*U+313F*/
#define XK_Hangul_RieulHieuh 0xeb0 /*U+3140*/
#define XK_Hangul_Mieum 0xeb1 /*U+3141*/
#define XK_Hangul_Pieub 0xeb2 /*U+3142*/
#define XK_Hangul_SsangPieub 0xeb3 /*U+3143*/
#define XK_Hangul_PieubSios 0xeb4 /*U+3144*/
#define XK_Hangul_Sios 0xeb5 /*U+3145*/
#define XK_Hangul_SsangSios 0xeb6 /*U+3146*/
#define XK_Hangul_Ieung 0xeb7 /*U+3147*/
#define XK_Hangul_Jieuj 0xeb8 /*U+3148*/
#define XK_Hangul_SsangJieuj 0xeb9 /*U+3149*/
#define XK_Hangul_Cieuc 0xeba /*U+314A*/
#define XK_Hangul_Khieuq 0xebb /*U+314B*/
#define XK_Hangul_Tieut 0xebc /*U+314C*/
#define XK_Hangul_Phieuf 0xebd /*U+314D*/
#define XK_Hangul_Hieuh 0xebe /*U+314E*/
#define XK_Hangul_A 0xebf /*U+314F*/
#define XK_Hangul_AE 0xec0 /*U+3150*/
#define XK_Hangul_YA 0xec1 /*U+3151*/
#define XK_Hangul_YAE 0xec2 /*U+3152*/
#define XK_Hangul_EO 0xec3 /*U+3153*/
#define XK_Hangul_E 0xec4 /*U+3154*/
#define XK_Hangul_YEO 0xec5 /*U+3155*/
#define XK_Hangul_YE 0xec6 /*U+3156*/
#define XK_Hangul_O 0xec7 /*U+3157*/
#define XK_Hangul_WA 0xec8 /*U+3158*/
#define XK_Hangul_WAE 0xec9 /*U+3159*/
#define XK_Hangul_OE 0xeca /*U+315A*/
#define XK_Hangul_YO 0xecb /*U+315B*/
#define XK_Hangul_U 0xecc /*U+315C*/
#define XK_Hangul_WEO 0xecd /*U+315D*/
#define XK_Hangul_WE 0xece /*U+315E*/
#define XK_Hangul_WI 0xecf /*U+315F*/
#define XK_Hangul_YU 0xed0 /*U+3160*/
#define XK_Hangul_EU 0xed1 /*U+3161*/
#define XK_Hangul_YI 0xed2 /*U+3162*/
#define XK_Hangul_I 0xed3 /*U+3163*/
#define XK_Hangul_J_Kiyeog 0xed4 /*U+11A8*/
#define XK_Hangul_J_SsangKiyeog 0xed5 /*U+11A9*/
#define XK_Hangul_J_KiyeogSios 0xed6 /*U+11AA*/
#define XK_Hangul_J_Nieun 0xed7 /*U+11AB*/
#define XK_Hangul_J_NieunJieuj 0xed8 /*U+11AC*/
#define XK_Hangul_J_NieunHieuh 0xed9 /*U+11AD*/
#define XK_Hangul_J_Dikeud 0xeda /*U+11AE*/
#define XK_Hangul_J_Rieul 0xedb /*U+11AF*/
#define XK_Hangul_J_RieulKiyeog 0xedc /*U+11B0*/
#define XK_Hangul_J_RieulMieum 0xedd /*U+11B1*/
#define XK_Hangul_J_RieulPieub 0xede /*U+11B2*/
#define XK_Hangul_J_RieulSios 0xedf /*U+11B3*/
#define XK_Hangul_J_RieulTieut 0xee0 /*U+11B4*/
#define XK_Hangul_J_RieulPhieuf 0xee1 /*U+11B5*/
#define XK_Hangul_J_RieulHieuh 0xee2 /*U+11B6*/
#define XK_Hangul_J_Mieum 0xee3 /*U+11B7*/
#define XK_Hangul_J_Pieub 0xee4 /*U+11B8*/
#define XK_Hangul_J_PieubSios 0xee5 /*U+11B9*/
#define XK_Hangul_J_Sios 0xee6 /*U+11BA*/
#define XK_Hangul_J_SsangSios 0xee7 /*U+11BB*/
#define XK_Hangul_J_Ieung 0xee8 /*U+11BC*/
#define XK_Hangul_J_Jieuj 0xee9 /*U+11BD*/
#define XK_Hangul_J_Cieuc 0xeea /*U+11BE*/
#define XK_Hangul_J_Khieuq 0xeeb /*U+11BF*/
#define XK_Hangul_J_Tieut 0xeec /*U+11C0*/
#define XK_Hangul_J_Phieuf 0xeed /*U+11C1*/
#define XK_Hangul_J_Hieuh 0xeee /*U+11C2*/
#define XK_Hangul_RieulYeorinHieuh 0xeef /*U+316D*/
#define XK_Hangul_SunkyeongeumMieum 0xef0 /*U+3171*/
#define XK_Hangul_SunkyeongeumPieub 0xef1 /*U+3178*/
#define XK_Hangul_PanSios 0xef2 /*U+317F*/
#define XK_Hangul_KkogjiDalrinIeung 0xef3 /*U+3181*/
#define XK_Hangul_SunkyeongeumPhieuf 0xef4 /*U+3184*/
#define XK_Hangul_YeorinHieuh 0xef5 /*U+3186*/
#define XK_Hangul_AraeA 0xef6 /*U+318D*/
#define XK_Hangul_AraeAE 0xef7 /*U+318E*/
#define XK_Hangul_J_PanSios 0xef8 /*U+11EB*/
#define XK_Hangul_J_KkogjiDalrinIeung 0xef9 /*U+11F0*/
#define XK_Hangul_J_YeorinHieuh 0xefa /*U+11F9*/
#define XK_Korean_Won 0xeff /*U+20A9*/
#define XK_Armenian_ligature_ew 0x1000587 /*U+0587*/
#define XK_Armenian_full_stop 0x1000589 /*U+0589*/
#define XK_Armenian_verjaket 0x1000589
#define XK_Armenian_separation_mark 0x100055d /*U+055D*/
#define XK_Armenian_but 0x100055d
#define XK_Armenian_hyphen 0x100058a /*U+058A*/
#define XK_Armenian_yentamna 0x100058a
#define XK_Armenian_exclam 0x100055c /*U+055C*/
#define XK_Armenian_amanak 0x100055c
#define XK_Armenian_accent 0x100055b /*U+055B*/
#define XK_Armenian_shesht 0x100055b
#define XK_Armenian_question 0x100055e /*U+055E*/
#define XK_Armenian_paruyk 0x100055e
#define XK_Armenian_AYB 0x1000531 /*U+0531*/
#define XK_Armenian_ayb 0x1000561 /*U+0561*/
#define XK_Armenian_BEN 0x1000532 /*U+0532*/
#define XK_Armenian_ben 0x1000562 /*U+0562*/
#define XK_Armenian_GIM 0x1000533 /*U+0533*/
#define XK_Armenian_gim 0x1000563 /*U+0563*/
#define XK_Armenian_DA 0x1000534 /*U+0534*/
#define XK_Armenian_da 0x1000564 /*U+0564*/
#define XK_Armenian_YECH 0x1000535 /*U+0535*/
#define XK_Armenian_yech 0x1000565 /*U+0565*/
#define XK_Armenian_ZA 0x1000536 /*U+0536*/
#define XK_Armenian_za 0x1000566 /*U+0566*/
#define XK_Armenian_E 0x1000537 /*U+0537*/
#define XK_Armenian_e 0x1000567 /*U+0567*/
#define XK_Armenian_AT 0x1000538 /*U+0538*/
#define XK_Armenian_at 0x1000568 /*U+0568*/
#define XK_Armenian_TO 0x1000539 /*U+0539*/
#define XK_Armenian_to 0x1000569 /*U+0569*/
#define XK_Armenian_ZHE 0x100053a /*U+053A*/
#define XK_Armenian_zhe 0x100056a /*U+056A*/
#define XK_Armenian_INI 0x100053b /*U+053B*/
#define XK_Armenian_ini 0x100056b /*U+056B*/
#define XK_Armenian_LYUN 0x100053c /*U+053C*/
#define XK_Armenian_lyun 0x100056c /*U+056C*/
#define XK_Armenian_KHE 0x100053d /*U+053D*/
#define XK_Armenian_khe 0x100056d /*U+056D*/
#define XK_Armenian_TSA 0x100053e /*U+053E*/
#define XK_Armenian_tsa 0x100056e /*U+056E*/
#define XK_Armenian_KEN 0x100053f /*U+053F*/
#define XK_Armenian_ken 0x100056f /*U+056F*/
#define XK_Armenian_HO 0x1000540 /*U+0540*/
#define XK_Armenian_ho 0x1000570 /*U+0570*/
#define XK_Armenian_DZA 0x1000541 /*U+0541*/
#define XK_Armenian_dza 0x1000571 /*U+0571*/
#define XK_Armenian_GHAT 0x1000542 /*U+0542*/
#define XK_Armenian_ghat 0x1000572 /*U+0572*/
#define XK_Armenian_TCHE 0x1000543 /*U+0543*/
#define XK_Armenian_tche 0x1000573 /*U+0573*/
#define XK_Armenian_MEN 0x1000544 /*U+0544*/
#define XK_Armenian_men 0x1000574 /*U+0574*/
#define XK_Armenian_HI 0x1000545 /*U+0545*/
#define XK_Armenian_hi 0x1000575 /*U+0575*/
#define XK_Armenian_NU 0x1000546 /*U+0546*/
#define XK_Armenian_nu 0x1000576 /*U+0576*/
#define XK_Armenian_SHA 0x1000547 /*U+0547*/
#define XK_Armenian_sha 0x1000577 /*U+0577*/
#define XK_Armenian_VO 0x1000548 /*U+0548*/
#define XK_Armenian_vo 0x1000578 /*U+0578*/
#define XK_Armenian_CHA 0x1000549 /*U+0549*/
#define XK_Armenian_cha 0x1000579 /*U+0579*/
#define XK_Armenian_PE 0x100054a /*U+054A*/
#define XK_Armenian_pe 0x100057a /*U+057A*/
#define XK_Armenian_JE 0x100054b /*U+054B*/
#define XK_Armenian_je 0x100057b /*U+057B*/
#define XK_Armenian_RA 0x100054c /*U+054C*/
#define XK_Armenian_ra 0x100057c /*U+057C*/
#define XK_Armenian_SE 0x100054d /*U+054D*/
#define XK_Armenian_se 0x100057d /*U+057D*/
#define XK_Armenian_VEV 0x100054e /*U+054E*/
#define XK_Armenian_vev 0x100057e /*U+057E*/
#define XK_Armenian_TYUN 0x100054f /*U+054F*/
#define XK_Armenian_tyun 0x100057f /*U+057F*/
#define XK_Armenian_RE 0x1000550 /*U+0550*/
#define XK_Armenian_re 0x1000580 /*U+0580*/
#define XK_Armenian_TSO 0x1000551 /*U+0551*/
#define XK_Armenian_tso 0x1000581 /*U+0581*/
#define XK_Armenian_VYUN 0x1000552 /*U+0552*/
#define XK_Armenian_vyun 0x1000582 /*U+0582*/
#define XK_Armenian_PYUR 0x1000553 /*U+0553*/
#define XK_Armenian_pyur 0x1000583 /*U+0583*/
#define XK_Armenian_KE 0x1000554 /*U+0554*/
#define XK_Armenian_ke 0x1000584 /*U+0584*/
#define XK_Armenian_O 0x1000555 /*U+0555*/
#define XK_Armenian_o 0x1000585 /*U+0585*/
#define XK_Armenian_FE 0x1000556 /*U+0556*/
#define XK_Armenian_fe 0x1000586 /*U+0586*/
#define XK_Armenian_apostrophe 0x100055a /*U+055A*/
#define XK_Georgian_an 0x10010d0 /*U+10D0*/
#define XK_Georgian_ban 0x10010d1 /*U+10D1*/
#define XK_Georgian_gan 0x10010d2 /*U+10D2*/
#define XK_Georgian_don 0x10010d3 /*U+10D3*/
#define XK_Georgian_en 0x10010d4 /*U+10D4*/
#define XK_Georgian_vin 0x10010d5 /*U+10D5*/
#define XK_Georgian_zen 0x10010d6 /*U+10D6*/
#define XK_Georgian_tan 0x10010d7 /*U+10D7*/
#define XK_Georgian_in 0x10010d8 /*U+10D8*/
#define XK_Georgian_kan 0x10010d9 /*U+10D9*/
#define XK_Georgian_las 0x10010da /*U+10DA*/
#define XK_Georgian_man 0x10010db /*U+10DB*/
#define XK_Georgian_nar 0x10010dc /*U+10DC*/
#define XK_Georgian_on 0x10010dd /*U+10DD*/
#define XK_Georgian_par 0x10010de /*U+10DE*/
#define XK_Georgian_zhar 0x10010df /*U+10DF*/
#define XK_Georgian_rae 0x10010e0 /*U+10E0*/
#define XK_Georgian_san 0x10010e1 /*U+10E1*/
#define XK_Georgian_tar 0x10010e2 /*U+10E2*/
#define XK_Georgian_un 0x10010e3 /*U+10E3*/
#define XK_Georgian_phar 0x10010e4 /*U+10E4*/
#define XK_Georgian_khar 0x10010e5 /*U+10E5*/
#define XK_Georgian_ghan 0x10010e6 /*U+10E6*/
#define XK_Georgian_qar 0x10010e7 /*U+10E7*/
#define XK_Georgian_shin 0x10010e8 /*U+10E8*/
#define XK_Georgian_chin 0x10010e9 /*U+10E9*/
#define XK_Georgian_can 0x10010ea /*U+10EA*/
#define XK_Georgian_jil 0x10010eb /*U+10EB*/
#define XK_Georgian_cil 0x10010ec /*U+10EC*/
#define XK_Georgian_char 0x10010ed /*U+10ED*/
#define XK_Georgian_xan 0x10010ee /*U+10EE*/
#define XK_Georgian_jhan 0x10010ef /*U+10EF*/
#define XK_Georgian_hae 0x10010f0 /*U+10F0*/
#define XK_Georgian_he 0x10010f1 /*U+10F1*/
#define XK_Georgian_hie 0x10010f2 /*U+10F2*/
#define XK_Georgian_we 0x10010f3 /*U+10F3*/
#define XK_Georgian_har 0x10010f4 /*U+10F4*/
#define XK_Georgian_hoe 0x10010f5 /*U+10F5*/
#define XK_Georgian_fi 0x10010f6 /*U+10F6*/
#define XK_Xabovedot 0x1001e8a /*U+1E8A*/
#define XK_Ibreve 0x100012c /*U+012C*/
#define XK_Zstroke 0x10001b5 /*U+01B5*/
#define XK_Gcaron 0x10001e6 /*U+01E6*/
#define XK_Ocaron 0x10001d1 /*U+01D1*/
#define XK_Obarred 0x100019f /*U+019F*/
#define XK_xabovedot 0x1001e8b /*U+1E8B*/
#define XK_ibreve 0x100012d /*U+012D*/
#define XK_zstroke 0x10001b6 /*U+01B6*/
#define XK_gcaron 0x10001e7 /*U+01E7*/
#define XK_ocaron 0x10001d2 /*U+01D2*/
#define XK_obarred 0x1000275 /*U+0275*/
#define XK_SCHWA 0x100018f /*U+018F*/
#define XK_schwa 0x1000259 /*U+0259*/
#define XK_EZH 0x10001b7 /*U+01B7*/
#define XK_ezh 0x1000292 /*U+0292*/
#define XK_Lbelowdot 0x1001e36 /*U+1E36*/
#define XK_lbelowdot 0x1001e37 /*U+1E37*/
#define XK_Abelowdot 0x1001ea0 /*U+1EA0*/
#define XK_abelowdot 0x1001ea1 /*U+1EA1*/
#define XK_Ahook 0x1001ea2 /*U+1EA2*/
#define XK_ahook 0x1001ea3 /*U+1EA3*/
#define XK_Acircumflexacute 0x1001ea4 /*U+1EA4*/
#define XK_acircumflexacute 0x1001ea5 /*U+1EA5*/
#define XK_Acircumflexgrave 0x1001ea6 /*U+1EA6*/
#define XK_acircumflexgrave 0x1001ea7 /*U+1EA7*/
#define XK_Acircumflexhook 0x1001ea8 /*U+1EA8*/
#define XK_acircumflexhook 0x1001ea9 /*U+1EA9*/
#define XK_Acircumflextilde 0x1001eaa /*U+1EAA*/
#define XK_acircumflextilde 0x1001eab /*U+1EAB*/
#define XK_Acircumflexbelowdot 0x1001eac /*U+1EAC*/
#define XK_acircumflexbelowdot 0x1001ead /*U+1EAD*/
#define XK_Abreveacute 0x1001eae /*U+1EAE*/
#define XK_abreveacute 0x1001eaf /*U+1EAF*/
#define XK_Abrevegrave 0x1001eb0 /*U+1EB0*/
#define XK_abrevegrave 0x1001eb1 /*U+1EB1*/
#define XK_Abrevehook 0x1001eb2 /*U+1EB2*/
#define XK_abrevehook 0x1001eb3 /*U+1EB3*/
#define XK_Abrevetilde 0x1001eb4 /*U+1EB4*/
#define XK_abrevetilde 0x1001eb5 /*U+1EB5*/
#define XK_Abrevebelowdot 0x1001eb6 /*U+1EB6*/
#define XK_abrevebelowdot 0x1001eb7 /*U+1EB7*/
#define XK_Ebelowdot 0x1001eb8 /*U+1EB8*/
#define XK_ebelowdot 0x1001eb9 /*U+1EB9*/
#define XK_Ehook 0x1001eba /*U+1EBA*/
#define XK_ehook 0x1001ebb /*U+1EBB*/
#define XK_Etilde 0x1001ebc /*U+1EBC*/
#define XK_etilde 0x1001ebd /*U+1EBD*/
#define XK_Ecircumflexacute 0x1001ebe /*U+1EBE*/
#define XK_ecircumflexacute 0x1001ebf /*U+1EBF*/
#define XK_Ecircumflexgrave 0x1001ec0 /*U+1EC0*/
#define XK_ecircumflexgrave 0x1001ec1 /*U+1EC1*/
#define XK_Ecircumflexhook 0x1001ec2 /*U+1EC2*/
#define XK_ecircumflexhook 0x1001ec3 /*U+1EC3*/
#define XK_Ecircumflextilde 0x1001ec4 /*U+1EC4*/
#define XK_ecircumflextilde 0x1001ec5 /*U+1EC5*/
#define XK_Ecircumflexbelowdot 0x1001ec6 /*U+1EC6*/
#define XK_ecircumflexbelowdot 0x1001ec7 /*U+1EC7*/
#define XK_Ihook 0x1001ec8 /*U+1EC8*/
#define XK_ihook 0x1001ec9 /*U+1EC9*/
#define XK_Ibelowdot 0x1001eca /*U+1ECA*/
#define XK_ibelowdot 0x1001ecb /*U+1ECB*/
#define XK_Obelowdot 0x1001ecc /*U+1ECC*/
#define XK_obelowdot 0x1001ecd /*U+1ECD*/
#define XK_Ohook 0x1001ece /*U+1ECE*/
#define XK_ohook 0x1001ecf /*U+1ECF*/
#define XK_Ocircumflexacute 0x1001ed0 /*U+1ED0*/
#define XK_ocircumflexacute 0x1001ed1 /*U+1ED1*/
#define XK_Ocircumflexgrave 0x1001ed2 /*U+1ED2*/
#define XK_ocircumflexgrave 0x1001ed3 /*U+1ED3*/
#define XK_Ocircumflexhook 0x1001ed4 /*U+1ED4*/
#define XK_ocircumflexhook 0x1001ed5 /*U+1ED5*/
#define XK_Ocircumflextilde 0x1001ed6 /*U+1ED6*/
#define XK_ocircumflextilde 0x1001ed7 /*U+1ED7*/
#define XK_Ocircumflexbelowdot 0x1001ed8 /*U+1ED8*/
#define XK_ocircumflexbelowdot 0x1001ed9 /*U+1ED9*/
#define XK_Ohornacute 0x1001eda /*U+1EDA*/
#define XK_ohornacute 0x1001edb /*U+1EDB*/
#define XK_Ohorngrave 0x1001edc /*U+1EDC*/
#define XK_ohorngrave 0x1001edd /*U+1EDD*/
#define XK_Ohornhook 0x1001ede /*U+1EDE*/
#define XK_ohornhook 0x1001edf /*U+1EDF*/
#define XK_Ohorntilde 0x1001ee0 /*U+1EE0*/
#define XK_ohorntilde 0x1001ee1 /*U+1EE1*/
#define XK_Ohornbelowdot 0x1001ee2 /*U+1EE2*/
#define XK_ohornbelowdot 0x1001ee3 /*U+1EE3*/
#define XK_Ubelowdot 0x1001ee4 /*U+1EE4*/
#define XK_ubelowdot 0x1001ee5 /*U+1EE5*/
#define XK_Uhook 0x1001ee6 /*U+1EE6*/
#define XK_uhook 0x1001ee7 /*U+1EE7*/
#define XK_Uhornacute 0x1001ee8 /*U+1EE8*/
#define XK_uhornacute 0x1001ee9 /*U+1EE9*/
#define XK_Uhorngrave 0x1001eea /*U+1EEA*/
#define XK_uhorngrave 0x1001eeb /*U+1EEB*/
#define XK_Uhornhook 0x1001eec /*U+1EEC*/
#define XK_uhornhook 0x1001eed /*U+1EED*/
#define XK_Uhorntilde 0x1001eee /*U+1EEE*/
#define XK_uhorntilde 0x1001eef /*U+1EEF*/
#define XK_Uhornbelowdot 0x1001ef0 /*U+1EF0*/
#define XK_uhornbelowdot 0x1001ef1 /*U+1EF1*/
#define XK_Ybelowdot 0x1001ef4 /*U+1EF4*/
#define XK_ybelowdot 0x1001ef5 /*U+1EF5*/
#define XK_Yhook 0x1001ef6 /*U+1EF6*/
#define XK_yhook 0x1001ef7 /*U+1EF7*/
#define XK_Ytilde 0x1001ef8 /*U+1EF8*/
#define XK_ytilde 0x1001ef9 /*U+1EF9*/
#define XK_Ohorn 0x10001a0 /*U+01A0*/
#define XK_ohorn 0x10001a1 /*U+01A1*/
#define XK_Uhorn 0x10001af /*U+01AF*/
#define XK_uhorn 0x10001b0 /*U+01B0*/
#define XK_combining_tilde 0x1000303 /*U+0303*/
#define XK_combining_grave 0x1000300 /*U+0300*/
#define XK_combining_acute 0x1000301 /*U+0301*/
#define XK_combining_hook 0x1000309 /*U+0309*/
#define XK_combining_belowdot 0x1000323 /*U+0323*/
#define XK_EcuSign 0x10020a0 /*U+20A0*/
#define XK_ColonSign 0x10020a1 /*U+20A1*/
#define XK_CruzeiroSign 0x10020a2 /*U+20A2*/
#define XK_FFrancSign 0x10020a3 /*U+20A3*/
#define XK_LiraSign 0x10020a4 /*U+20A4*/
#define XK_MillSign 0x10020a5 /*U+20A5*/
#define XK_NairaSign 0x10020a6 /*U+20A6*/
#define XK_PesetaSign 0x10020a7 /*U+20A7*/
#define XK_RupeeSign 0x10020a8 /*U+20A8*/
#define XK_WonSign 0x10020a9 /*U+20A9*/
#define XK_NewSheqelSign 0x10020aa /*U+20AA*/
#define XK_DongSign 0x10020ab /*U+20AB*/
#define XK_EuroSign 0x20ac /*U+20AC*/
#define XK_zerosuperior 0x1002070 /*U+2070*/
#define XK_foursuperior 0x1002074 /*U+2074*/
#define XK_fivesuperior 0x1002075 /*U+2075*/
#define XK_sixsuperior 0x1002076 /*U+2076*/
#define XK_sevensuperior 0x1002077 /*U+2077*/
#define XK_eightsuperior 0x1002078 /*U+2078*/
#define XK_ninesuperior 0x1002079 /*U+2079*/
#define XK_zerosubscript 0x1002080 /*U+2080*/
#define XK_onesubscript 0x1002081 /*U+2081*/
#define XK_twosubscript 0x1002082 /*U+2082*/
#define XK_threesubscript 0x1002083 /*U+2083*/
#define XK_foursubscript 0x1002084 /*U+2084*/
#define XK_fivesubscript 0x1002085 /*U+2085*/
#define XK_sixsubscript 0x1002086 /*U+2086*/
#define XK_sevensubscript 0x1002087 /*U+2087*/
#define XK_eightsubscript 0x1002088 /*U+2088*/
#define XK_ninesubscript 0x1002089 /*U+2089*/
#define XK_partdifferential 0x1002202 /*U+2202*/
#define XK_emptyset 0x1002205 /*U+2205*/
#define XK_elementof 0x1002208 /*U+2208*/
#define XK_notelementof 0x1002209 /*U+2209*/
#define XK_containsas 0x100220b /*U+220B*/
#define XK_squareroot 0x100221a /*U+221A*/
#define XK_cuberoot 0x100221b /*U+221B*/
#define XK_fourthroot 0x100221c /*U+221C*/
#define XK_dintegral 0x100222c /*U+222C*/
#define XK_tintegral 0x100222d /*U+222D*/
#define XK_because 0x1002235 /*U+2235*/
#define XK_approxeq 0x1002248 /*U+2248*/
#define XK_notapproxeq 0x1002247 /*U+2247*/
#define XK_notidentical 0x1002262 /*U+2262*/
#define XK_stricteq 0x1002263 /*U+2263*/
#define XK_braille_dot_1 0xfff1
#define XK_braille_dot_2 0xfff2
#define XK_braille_dot_3 0xfff3
#define XK_braille_dot_4 0xfff4
#define XK_braille_dot_5 0xfff5
#define XK_braille_dot_6 0xfff6
#define XK_braille_dot_7 0xfff7
#define XK_braille_dot_8 0xfff8
#define XK_braille_dot_9 0xfff9
#define XK_braille_dot_10 0xfffa
#define XK_braille_blank 0x1002800 /*U+2800*/
#define XK_braille_dots_1 0x1002801 /*U+2801*/
#define XK_braille_dots_2 0x1002802 /*U+2802*/
#define XK_braille_dots_12 0x1002803 /*U+2803*/
#define XK_braille_dots_3 0x1002804 /*U+2804*/
#define XK_braille_dots_13 0x1002805 /*U+2805*/
#define XK_braille_dots_23 0x1002806 /*U+2806*/
#define XK_braille_dots_123 0x1002807 /*U+2807*/
#define XK_braille_dots_4 0x1002808 /*U+2808*/
#define XK_braille_dots_14 0x1002809 /*U+2809*/
#define XK_braille_dots_24 0x100280a /*U+280A*/
#define XK_braille_dots_124 0x100280b /*U+280B*/
#define XK_braille_dots_34 0x100280c /*U+280C*/
#define XK_braille_dots_134 0x100280d /*U+280D*/
#define XK_braille_dots_234 0x100280e /*U+280E*/
#define XK_braille_dots_1234 0x100280f /*U+280F*/
#define XK_braille_dots_5 0x1002810 /*U+2810*/
#define XK_braille_dots_15 0x1002811 /*U+2811*/
#define XK_braille_dots_25 0x1002812 /*U+2812*/
#define XK_braille_dots_125 0x1002813 /*U+2813*/
#define XK_braille_dots_35 0x1002814 /*U+2814*/
#define XK_braille_dots_135 0x1002815 /*U+2815*/
#define XK_braille_dots_235 0x1002816 /*U+2816*/
#define XK_braille_dots_1235 0x1002817 /*U+2817*/
#define XK_braille_dots_45 0x1002818 /*U+2818*/
#define XK_braille_dots_145 0x1002819 /*U+2819*/
#define XK_braille_dots_245 0x100281a /*U+281A*/
#define XK_braille_dots_1245 0x100281b /*U+281B*/
#define XK_braille_dots_345 0x100281c /*U+281C*/
#define XK_braille_dots_1345 0x100281d /*U+281D*/
#define XK_braille_dots_2345 0x100281e /*U+281E*/
#define XK_braille_dots_12345 0x100281f /*U+281F*/
#define XK_braille_dots_6 0x1002820 /*U+2820*/
#define XK_braille_dots_16 0x1002821 /*U+2821*/
#define XK_braille_dots_26 0x1002822 /*U+2822*/
#define XK_braille_dots_126 0x1002823 /*U+2823*/
#define XK_braille_dots_36 0x1002824 /*U+2824*/
#define XK_braille_dots_136 0x1002825 /*U+2825*/
#define XK_braille_dots_236 0x1002826 /*U+2826*/
#define XK_braille_dots_1236 0x1002827 /*U+2827*/
#define XK_braille_dots_46 0x1002828 /*U+2828*/
#define XK_braille_dots_146 0x1002829 /*U+2829*/
#define XK_braille_dots_246 0x100282a /*U+282A*/
#define XK_braille_dots_1246 0x100282b /*U+282B*/
#define XK_braille_dots_346 0x100282c /*U+282C*/
#define XK_braille_dots_1346 0x100282d /*U+282D*/
#define XK_braille_dots_2346 0x100282e /*U+282E*/
#define XK_braille_dots_12346 0x100282f /*U+282F*/
#define XK_braille_dots_56 0x1002830 /*U+2830*/
#define XK_braille_dots_156 0x1002831 /*U+2831*/
#define XK_braille_dots_256 0x1002832 /*U+2832*/
#define XK_braille_dots_1256 0x1002833 /*U+2833*/
#define XK_braille_dots_356 0x1002834 /*U+2834*/
#define XK_braille_dots_1356 0x1002835 /*U+2835*/
#define XK_braille_dots_2356 0x1002836 /*U+2836*/
#define XK_braille_dots_12356 0x1002837 /*U+2837*/
#define XK_braille_dots_456 0x1002838 /*U+2838*/
#define XK_braille_dots_1456 0x1002839 /*U+2839*/
#define XK_braille_dots_2456 0x100283a /*U+283A*/
#define XK_braille_dots_12456 0x100283b /*U+283B*/
#define XK_braille_dots_3456 0x100283c /*U+283C*/
#define XK_braille_dots_13456 0x100283d /*U+283D*/
#define XK_braille_dots_23456 0x100283e /*U+283E*/
#define XK_braille_dots_123456 0x100283f /*U+283F*/
#define XK_braille_dots_7 0x1002840 /*U+2840*/
#define XK_braille_dots_17 0x1002841 /*U+2841*/
#define XK_braille_dots_27 0x1002842 /*U+2842*/
#define XK_braille_dots_127 0x1002843 /*U+2843*/
#define XK_braille_dots_37 0x1002844 /*U+2844*/
#define XK_braille_dots_137 0x1002845 /*U+2845*/
#define XK_braille_dots_237 0x1002846 /*U+2846*/
#define XK_braille_dots_1237 0x1002847 /*U+2847*/
#define XK_braille_dots_47 0x1002848 /*U+2848*/
#define XK_braille_dots_147 0x1002849 /*U+2849*/
#define XK_braille_dots_247 0x100284a /*U+284A*/
#define XK_braille_dots_1247 0x100284b /*U+284B*/
#define XK_braille_dots_347 0x100284c /*U+284C*/
#define XK_braille_dots_1347 0x100284d /*U+284D*/
#define XK_braille_dots_2347 0x100284e /*U+284E*/
#define XK_braille_dots_12347 0x100284f /*U+284F*/
#define XK_braille_dots_57 0x1002850 /*U+2850*/
#define XK_braille_dots_157 0x1002851 /*U+2851*/
#define XK_braille_dots_257 0x1002852 /*U+2852*/
#define XK_braille_dots_1257 0x1002853 /*U+2853*/
#define XK_braille_dots_357 0x1002854 /*U+2854*/
#define XK_braille_dots_1357 0x1002855 /*U+2855*/
#define XK_braille_dots_2357 0x1002856 /*U+2856*/
#define XK_braille_dots_12357 0x1002857 /*U+2857*/
#define XK_braille_dots_457 0x1002858 /*U+2858*/
#define XK_braille_dots_1457 0x1002859 /*U+2859*/
#define XK_braille_dots_2457 0x100285a /*U+285A*/
#define XK_braille_dots_12457 0x100285b /*U+285B*/
#define XK_braille_dots_3457 0x100285c /*U+285C*/
#define XK_braille_dots_13457 0x100285d /*U+285D*/
#define XK_braille_dots_23457 0x100285e /*U+285E*/
#define XK_braille_dots_123457 0x100285f /*U+285F*/
#define XK_braille_dots_67 0x1002860 /*U+2860*/
#define XK_braille_dots_167 0x1002861 /*U+2861*/
#define XK_braille_dots_267 0x1002862 /*U+2862*/
#define XK_braille_dots_1267 0x1002863 /*U+2863*/
#define XK_braille_dots_367 0x1002864 /*U+2864*/
#define XK_braille_dots_1367 0x1002865 /*U+2865*/
#define XK_braille_dots_2367 0x1002866 /*U+2866*/
#define XK_braille_dots_12367 0x1002867 /*U+2867*/
#define XK_braille_dots_467 0x1002868 /*U+2868*/
#define XK_braille_dots_1467 0x1002869 /*U+2869*/
#define XK_braille_dots_2467 0x100286a /*U+286A*/
#define XK_braille_dots_12467 0x100286b /*U+286B*/
#define XK_braille_dots_3467 0x100286c /*U+286C*/
#define XK_braille_dots_13467 0x100286d /*U+286D*/
#define XK_braille_dots_23467 0x100286e /*U+286E*/
#define XK_braille_dots_123467 0x100286f /*U+286F*/
#define XK_braille_dots_567 0x1002870 /*U+2870*/
#define XK_braille_dots_1567 0x1002871 /*U+2871*/
#define XK_braille_dots_2567 0x1002872 /*U+2872*/
#define XK_braille_dots_12567 0x1002873 /*U+2873*/
#define XK_braille_dots_3567 0x1002874 /*U+2874*/
#define XK_braille_dots_13567 0x1002875 /*U+2875*/
#define XK_braille_dots_23567 0x1002876 /*U+2876*/
#define XK_braille_dots_123567 0x1002877 /*U+2877*/
#define XK_braille_dots_4567 0x1002878 /*U+2878*/
#define XK_braille_dots_14567 0x1002879 /*U+2879*/
#define XK_braille_dots_24567 0x100287a /*U+287A*/
#define XK_braille_dots_124567 0x100287b /*U+287B*/
#define XK_braille_dots_34567 0x100287c /*U+287C*/
#define XK_braille_dots_134567 0x100287d /*U+287D*/
#define XK_braille_dots_234567 0x100287e /*U+287E*/
#define XK_braille_dots_1234567 0x100287f /*U+287F*/
#define XK_braille_dots_8 0x1002880 /*U+2880*/
#define XK_braille_dots_18 0x1002881 /*U+2881*/
#define XK_braille_dots_28 0x1002882 /*U+2882*/
#define XK_braille_dots_128 0x1002883 /*U+2883*/
#define XK_braille_dots_38 0x1002884 /*U+2884*/
#define XK_braille_dots_138 0x1002885 /*U+2885*/
#define XK_braille_dots_238 0x1002886 /*U+2886*/
#define XK_braille_dots_1238 0x1002887 /*U+2887*/
#define XK_braille_dots_48 0x1002888 /*U+2888*/
#define XK_braille_dots_148 0x1002889 /*U+2889*/
#define XK_braille_dots_248 0x100288a /*U+288A*/
#define XK_braille_dots_1248 0x100288b /*U+288B*/
#define XK_braille_dots_348 0x100288c /*U+288C*/
#define XK_braille_dots_1348 0x100288d /*U+288D*/
#define XK_braille_dots_2348 0x100288e /*U+288E*/
#define XK_braille_dots_12348 0x100288f /*U+288F*/
#define XK_braille_dots_58 0x1002890 /*U+2890*/
#define XK_braille_dots_158 0x1002891 /*U+2891*/
#define XK_braille_dots_258 0x1002892 /*U+2892*/
#define XK_braille_dots_1258 0x1002893 /*U+2893*/
#define XK_braille_dots_358 0x1002894 /*U+2894*/
#define XK_braille_dots_1358 0x1002895 /*U+2895*/
#define XK_braille_dots_2358 0x1002896 /*U+2896*/
#define XK_braille_dots_12358 0x1002897 /*U+2897*/
#define XK_braille_dots_458 0x1002898 /*U+2898*/
#define XK_braille_dots_1458 0x1002899 /*U+2899*/
#define XK_braille_dots_2458 0x100289a /*U+289A*/
#define XK_braille_dots_12458 0x100289b /*U+289B*/
#define XK_braille_dots_3458 0x100289c /*U+289C*/
#define XK_braille_dots_13458 0x100289d /*U+289D*/
#define XK_braille_dots_23458 0x100289e /*U+289E*/
#define XK_braille_dots_123458 0x100289f /*U+289F*/
#define XK_braille_dots_68 0x10028a0 /*U+28A0*/
#define XK_braille_dots_168 0x10028a1 /*U+28A1*/
#define XK_braille_dots_268 0x10028a2 /*U+28A2*/
#define XK_braille_dots_1268 0x10028a3 /*U+28A3*/
#define XK_braille_dots_368 0x10028a4 /*U+28A4*/
#define XK_braille_dots_1368 0x10028a5 /*U+28A5*/
#define XK_braille_dots_2368 0x10028a6 /*U+28A6*/
#define XK_braille_dots_12368 0x10028a7 /*U+28A7*/
#define XK_braille_dots_468 0x10028a8 /*U+28A8*/
#define XK_braille_dots_1468 0x10028a9 /*U+28A9*/
#define XK_braille_dots_2468 0x10028aa /*U+28AA*/
#define XK_braille_dots_12468 0x10028ab /*U+28AB*/
#define XK_braille_dots_3468 0x10028ac /*U+28AC*/
#define XK_braille_dots_13468 0x10028ad /*U+28AD*/
#define XK_braille_dots_23468 0x10028ae /*U+28AE*/
#define XK_braille_dots_123468 0x10028af /*U+28AF*/
#define XK_braille_dots_568 0x10028b0 /*U+28B0*/
#define XK_braille_dots_1568 0x10028b1 /*U+28B1*/
#define XK_braille_dots_2568 0x10028b2 /*U+28B2*/
#define XK_braille_dots_12568 0x10028b3 /*U+28B3*/
#define XK_braille_dots_3568 0x10028b4 /*U+28B4*/
#define XK_braille_dots_13568 0x10028b5 /*U+28B5*/
#define XK_braille_dots_23568 0x10028b6 /*U+28B6*/
#define XK_braille_dots_123568 0x10028b7 /*U+28B7*/
#define XK_braille_dots_4568 0x10028b8 /*U+28B8*/
#define XK_braille_dots_14568 0x10028b9 /*U+28B9*/
#define XK_braille_dots_24568 0x10028ba /*U+28BA*/
#define XK_braille_dots_124568 0x10028bb /*U+28BB*/
#define XK_braille_dots_34568 0x10028bc /*U+28BC*/
#define XK_braille_dots_134568 0x10028bd /*U+28BD*/
#define XK_braille_dots_234568 0x10028be /*U+28BE*/
#define XK_braille_dots_1234568 0x10028bf /*U+28BF*/
#define XK_braille_dots_78 0x10028c0 /*U+28C0*/
#define XK_braille_dots_178 0x10028c1 /*U+28C1*/
#define XK_braille_dots_278 0x10028c2 /*U+28C2*/
#define XK_braille_dots_1278 0x10028c3 /*U+28C3*/
#define XK_braille_dots_378 0x10028c4 /*U+28C4*/
#define XK_braille_dots_1378 0x10028c5 /*U+28C5*/
#define XK_braille_dots_2378 0x10028c6 /*U+28C6*/
#define XK_braille_dots_12378 0x10028c7 /*U+28C7*/
#define XK_braille_dots_478 0x10028c8 /*U+28C8*/
#define XK_braille_dots_1478 0x10028c9 /*U+28C9*/
#define XK_braille_dots_2478 0x10028ca /*U+28CA*/
#define XK_braille_dots_12478 0x10028cb /*U+28CB*/
#define XK_braille_dots_3478 0x10028cc /*U+28CC*/
#define XK_braille_dots_13478 0x10028cd /*U+28CD*/
#define XK_braille_dots_23478 0x10028ce /*U+28CE*/
#define XK_braille_dots_123478 0x10028cf /*U+28CF*/
#define XK_braille_dots_578 0x10028d0 /*U+28D0*/
#define XK_braille_dots_1578 0x10028d1 /*U+28D1*/
#define XK_braille_dots_2578 0x10028d2 /*U+28D2*/
#define XK_braille_dots_12578 0x10028d3 /*U+28D3*/
#define XK_braille_dots_3578 0x10028d4 /*U+28D4*/
#define XK_braille_dots_13578 0x10028d5 /*U+28D5*/
#define XK_braille_dots_23578 0x10028d6 /*U+28D6*/
#define XK_braille_dots_123578 0x10028d7 /*U+28D7*/
#define XK_braille_dots_4578 0x10028d8 /*U+28D8*/
#define XK_braille_dots_14578 0x10028d9 /*U+28D9*/
#define XK_braille_dots_24578 0x10028da /*U+28DA*/
#define XK_braille_dots_124578 0x10028db /*U+28DB*/
#define XK_braille_dots_34578 0x10028dc /*U+28DC*/
#define XK_braille_dots_134578 0x10028dd /*U+28DD*/
#define XK_braille_dots_234578 0x10028de /*U+28DE*/
#define XK_braille_dots_1234578 0x10028df /*U+28DF*/
#define XK_braille_dots_678 0x10028e0 /*U+28E0*/
#define XK_braille_dots_1678 0x10028e1 /*U+28E1*/
#define XK_braille_dots_2678 0x10028e2 /*U+28E2*/
#define XK_braille_dots_12678 0x10028e3 /*U+28E3*/
#define XK_braille_dots_3678 0x10028e4 /*U+28E4*/
#define XK_braille_dots_13678 0x10028e5 /*U+28E5*/
#define XK_braille_dots_23678 0x10028e6 /*U+28E6*/
#define XK_braille_dots_123678 0x10028e7 /*U+28E7*/
#define XK_braille_dots_4678 0x10028e8 /*U+28E8*/
#define XK_braille_dots_14678 0x10028e9 /*U+28E9*/
#define XK_braille_dots_24678 0x10028ea /*U+28EA*/
#define XK_braille_dots_124678 0x10028eb /*U+28EB*/
#define XK_braille_dots_34678 0x10028ec /*U+28EC*/
#define XK_braille_dots_134678 0x10028ed /*U+28ED*/
#define XK_braille_dots_234678 0x10028ee /*U+28EE*/
#define XK_braille_dots_1234678 0x10028ef /*U+28EF*/
#define XK_braille_dots_5678 0x10028f0 /*U+28F0*/
#define XK_braille_dots_15678 0x10028f1 /*U+28F1*/
#define XK_braille_dots_25678 0x10028f2 /*U+28F2*/
#define XK_braille_dots_125678 0x10028f3 /*U+28F3*/
#define XK_braille_dots_35678 0x10028f4 /*U+28F4*/
#define XK_braille_dots_135678 0x10028f5 /*U+28F5*/
#define XK_braille_dots_235678 0x10028f6 /*U+28F6*/
#define XK_braille_dots_1235678 0x10028f7 /*U+28F7*/
#define XK_braille_dots_45678 0x10028f8 /*U+28F8*/
#define XK_braille_dots_145678 0x10028f9 /*U+28F9*/
#define XK_braille_dots_245678 0x10028fa /*U+28FA*/
#define XK_braille_dots_1245678 0x10028fb /*U+28FB*/
#define XK_braille_dots_345678 0x10028fc /*U+28FC*/
#define XK_braille_dots_1345678 0x10028fd /*U+28FD*/
#define XK_braille_dots_2345678 0x10028fe /*U+28FE*/
#define XK_braille_dots_12345678 0x10028ff /*U+28FF*/
#define XK_Sinh_ng 0x1000d82 /*U+0D82*/
#define XK_Sinh_h2 0x1000d83 /*U+0D83*/
#define XK_Sinh_a 0x1000d85 /*U+0D85*/
#define XK_Sinh_aa 0x1000d86 /*U+0D86*/
#define XK_Sinh_ae 0x1000d87 /*U+0D87*/
#define XK_Sinh_aee 0x1000d88 /*U+0D88*/
#define XK_Sinh_i 0x1000d89 /*U+0D89*/
#define XK_Sinh_ii 0x1000d8a /*U+0D8A*/
#define XK_Sinh_u 0x1000d8b /*U+0D8B*/
#define XK_Sinh_uu 0x1000d8c /*U+0D8C*/
#define XK_Sinh_ri 0x1000d8d /*U+0D8D*/
#define XK_Sinh_rii 0x1000d8e /*U+0D8E*/
#define XK_Sinh_lu 0x1000d8f /*U+0D8F*/
#define XK_Sinh_luu 0x1000d90 /*U+0D90*/
#define XK_Sinh_e 0x1000d91 /*U+0D91*/
#define XK_Sinh_ee 0x1000d92 /*U+0D92*/
#define XK_Sinh_ai 0x1000d93 /*U+0D93*/
#define XK_Sinh_o 0x1000d94 /*U+0D94*/
#define XK_Sinh_oo 0x1000d95 /*U+0D95*/
#define XK_Sinh_au 0x1000d96 /*U+0D96*/
#define XK_Sinh_ka 0x1000d9a /*U+0D9A*/
#define XK_Sinh_kha 0x1000d9b /*U+0D9B*/
#define XK_Sinh_ga 0x1000d9c /*U+0D9C*/
#define XK_Sinh_gha 0x1000d9d /*U+0D9D*/
#define XK_Sinh_ng2 0x1000d9e /*U+0D9E*/
#define XK_Sinh_nga 0x1000d9f /*U+0D9F*/
#define XK_Sinh_ca 0x1000da0 /*U+0DA0*/
#define XK_Sinh_cha 0x1000da1 /*U+0DA1*/
#define XK_Sinh_ja 0x1000da2 /*U+0DA2*/
#define XK_Sinh_jha 0x1000da3 /*U+0DA3*/
#define XK_Sinh_nya 0x1000da4 /*U+0DA4*/
#define XK_Sinh_jnya 0x1000da5 /*U+0DA5*/
#define XK_Sinh_nja 0x1000da6 /*U+0DA6*/
#define XK_Sinh_tta 0x1000da7 /*U+0DA7*/
#define XK_Sinh_ttha 0x1000da8 /*U+0DA8*/
#define XK_Sinh_dda 0x1000da9 /*U+0DA9*/
#define XK_Sinh_ddha 0x1000daa /*U+0DAA*/
#define XK_Sinh_nna 0x1000dab /*U+0DAB*/
#define XK_Sinh_ndda 0x1000dac /*U+0DAC*/
#define XK_Sinh_tha 0x1000dad /*U+0DAD*/
#define XK_Sinh_thha 0x1000dae /*U+0DAE*/
#define XK_Sinh_dha 0x1000daf /*U+0DAF*/
#define XK_Sinh_dhha 0x1000db0 /*U+0DB0*/
#define XK_Sinh_na 0x1000db1 /*U+0DB1*/
#define XK_Sinh_ndha 0x1000db3 /*U+0DB3*/
#define XK_Sinh_pa 0x1000db4 /*U+0DB4*/
#define XK_Sinh_pha 0x1000db5 /*U+0DB5*/
#define XK_Sinh_ba 0x1000db6 /*U+0DB6*/
#define XK_Sinh_bha 0x1000db7 /*U+0DB7*/
#define XK_Sinh_ma 0x1000db8 /*U+0DB8*/
#define XK_Sinh_mba 0x1000db9 /*U+0DB9*/
#define XK_Sinh_ya 0x1000dba /*U+0DBA*/
#define XK_Sinh_ra 0x1000dbb /*U+0DBB*/
#define XK_Sinh_la 0x1000dbd /*U+0DBD*/
#define XK_Sinh_va 0x1000dc0 /*U+0DC0*/
#define XK_Sinh_sha 0x1000dc1 /*U+0DC1*/
#define XK_Sinh_ssha 0x1000dc2 /*U+0DC2*/
#define XK_Sinh_sa 0x1000dc3 /*U+0DC3*/
#define XK_Sinh_ha 0x1000dc4 /*U+0DC4*/
#define XK_Sinh_lla 0x1000dc5 /*U+0DC5*/
#define XK_Sinh_fa 0x1000dc6 /*U+0DC6*/
#define XK_Sinh_al 0x1000dca /*U+0DCA*/
#define XK_Sinh_aa2 0x1000dcf /*U+0DCF*/
#define XK_Sinh_ae2 0x1000dd0 /*U+0DD0*/
#define XK_Sinh_aee2 0x1000dd1 /*U+0DD1*/
#define XK_Sinh_i2 0x1000dd2 /*U+0DD2*/
#define XK_Sinh_ii2 0x1000dd3 /*U+0DD3*/
#define XK_Sinh_u2 0x1000dd4 /*U+0DD4*/
#define XK_Sinh_uu2 0x1000dd6 /*U+0DD6*/
#define XK_Sinh_ru2 0x1000dd8 /*U+0DD8*/
#define XK_Sinh_e2 0x1000dd9 /*U+0DD9*/
#define XK_Sinh_ee2 0x1000dda /*U+0DDA*/
#define XK_Sinh_ai2 0x1000ddb /*U+0DDB*/
#define XK_Sinh_o2 0x1000ddc /*U+0DDC*/
#define XK_Sinh_oo2 0x1000ddd /*U+0DDD*/
#define XK_Sinh_au2 0x1000dde /*U+0DDE*/
#define XK_Sinh_lu2 0x1000ddf /*U+0DDF*/
#define XK_Sinh_ruu2 0x1000df2 /*U+0DF2*/
#define XK_Sinh_luu2 0x1000df3 /*U+0DF3*/
#define XK_Sinh_kunddaliya 0x1000df4 /*U+0DF4*/
#define XK_XF86ModeLock 0x1008ff01
#define XK_XF86MonBrightnessUp 0x1008ff02
#define XK_XF86MonBrightnessDown 0x1008ff03
#define XK_XF86KbdLightOnOff 0x1008ff04
#define XK_XF86KbdBrightnessUp 0x1008ff05
#define XK_XF86KbdBrightnessDown 0x1008ff06
#define XK_XF86MonBrightnessCycle 0x1008ff07
#define XK_XF86Standby 0x1008ff10
#define XK_XF86AudioLowerVolume 0x1008ff11
#define XK_XF86AudioMute 0x1008ff12
#define XK_XF86AudioRaiseVolume 0x1008ff13
#define XK_XF86AudioPlay 0x1008ff14
#define XK_XF86AudioStop 0x1008ff15
#define XK_XF86AudioPrev 0x1008ff16
#define XK_XF86AudioNext 0x1008ff17
#define XK_XF86HomePage 0x1008ff18
#define XK_XF86Mail 0x1008ff19
#define XK_XF86Start 0x1008ff1a
#define XK_XF86Search 0x1008ff1b
#define XK_XF86AudioRecord 0x1008ff1c
#define XK_XF86Calculator 0x1008ff1d
#define XK_XF86Memo 0x1008ff1e
#define XK_XF86ToDoList 0x1008ff1f
#define XK_XF86Calendar 0x1008ff20
#define XK_XF86PowerDown 0x1008ff21
#define XK_XF86ContrastAdjust 0x1008ff22
#define XK_XF86RockerUp 0x1008ff23
#define XK_XF86RockerDown 0x1008ff24
#define XK_XF86RockerEnter 0x1008ff25
#define XK_XF86Back 0x1008ff26
#define XK_XF86Forward 0x1008ff27
#define XK_XF86Stop 0x1008ff28
#define XK_XF86Refresh 0x1008ff29
#define XK_XF86PowerOff 0x1008ff2a
#define XK_XF86WakeUp 0x1008ff2b
#define XK_XF86Eject 0x1008ff2c
#define XK_XF86ScreenSaver 0x1008ff2d
#define XK_XF86WWW 0x1008ff2e
#define XK_XF86Sleep 0x1008ff2f
#define XK_XF86Favorites 0x1008ff30
#define XK_XF86AudioPause 0x1008ff31
#define XK_XF86AudioMedia 0x1008ff32
#define XK_XF86MyComputer 0x1008ff33
#define XK_XF86VendorHome 0x1008ff34
#define XK_XF86LightBulb 0x1008ff35
#define XK_XF86Shop 0x1008ff36
#define XK_XF86History 0x1008ff37
#define XK_XF86OpenURL 0x1008ff38
#define XK_XF86AddFavorite 0x1008ff39
#define XK_XF86HotLinks 0x1008ff3a
#define XK_XF86BrightnessAdjust 0x1008ff3b
#define XK_XF86Finance 0x1008ff3c
#define XK_XF86Community 0x1008ff3d
#define XK_XF86AudioRewind 0x1008ff3e
#define XK_XF86BackForward 0x1008ff3f
#define XK_XF86Launch0 0x1008ff40
#define XK_XF86Launch1 0x1008ff41
#define XK_XF86Launch2 0x1008ff42
#define XK_XF86Launch3 0x1008ff43
#define XK_XF86Launch4 0x1008ff44
#define XK_XF86Launch5 0x1008ff45
#define XK_XF86Launch6 0x1008ff46
#define XK_XF86Launch7 0x1008ff47
#define XK_XF86Launch8 0x1008ff48
#define XK_XF86Launch9 0x1008ff49
#define XK_XF86LaunchA 0x1008ff4a
#define XK_XF86LaunchB 0x1008ff4b
#define XK_XF86LaunchC 0x1008ff4c
#define XK_XF86LaunchD 0x1008ff4d
#define XK_XF86LaunchE 0x1008ff4e
#define XK_XF86LaunchF 0x1008ff4f
#define XK_XF86ApplicationLeft 0x1008ff50
#define XK_XF86ApplicationRight 0x1008ff51
#define XK_XF86Book 0x1008ff52
#define XK_XF86CD 0x1008ff53
#define XK_XF86Calculater 0x1008ff54
#define XK_XF86Clear 0x1008ff55
#define XK_XF86Close 0x1008ff56
#define XK_XF86Copy 0x1008ff57
#define XK_XF86Cut 0x1008ff58
#define XK_XF86Display 0x1008ff59
#define XK_XF86DOS 0x1008ff5a
#define XK_XF86Documents 0x1008ff5b
#define XK_XF86Excel 0x1008ff5c
#define XK_XF86Explorer 0x1008ff5d
#define XK_XF86Game 0x1008ff5e
#define XK_XF86Go 0x1008ff5f
#define XK_XF86iTouch 0x1008ff60
#define XK_XF86LogOff 0x1008ff61
#define XK_XF86Market 0x1008ff62
#define XK_XF86Meeting 0x1008ff63
#define XK_XF86MenuKB 0x1008ff65
#define XK_XF86MenuPB 0x1008ff66
#define XK_XF86MySites 0x1008ff67
#define XK_XF86New 0x1008ff68
#define XK_XF86News 0x1008ff69
#define XK_XF86OfficeHome 0x1008ff6a
#define XK_XF86Open 0x1008ff6b
#define XK_XF86Option 0x1008ff6c
#define XK_XF86Paste 0x1008ff6d
#define XK_XF86Phone 0x1008ff6e
#define XK_XF86Q 0x1008ff70
#define XK_XF86Reply 0x1008ff72
#define XK_XF86Reload 0x1008ff73
#define XK_XF86RotateWindows 0x1008ff74
#define XK_XF86RotationPB 0x1008ff75
#define XK_XF86RotationKB 0x1008ff76
#define XK_XF86Save 0x1008ff77
#define XK_XF86ScrollUp 0x1008ff78
#define XK_XF86ScrollDown 0x1008ff79
#define XK_XF86ScrollClick 0x1008ff7a
#define XK_XF86Send 0x1008ff7b
#define XK_XF86Spell 0x1008ff7c
#define XK_XF86SplitScreen 0x1008ff7d
#define XK_XF86Support 0x1008ff7e
#define XK_XF86TaskPane 0x1008ff7f
#define XK_XF86Terminal 0x1008ff80
#define XK_XF86Tools 0x1008ff81
#define XK_XF86Travel 0x1008ff82
#define XK_XF86UserPB 0x1008ff84
#define XK_XF86User1KB 0x1008ff85
#define XK_XF86User2KB 0x1008ff86
#define XK_XF86Video 0x1008ff87
#define XK_XF86WheelButton 0x1008ff88
#define XK_XF86Word 0x1008ff89
#define XK_XF86Xfer 0x1008ff8a
#define XK_XF86ZoomIn 0x1008ff8b
#define XK_XF86ZoomOut 0x1008ff8c
#define XK_XF86Away 0x1008ff8d
#define XK_XF86Messenger 0x1008ff8e
#define XK_XF86WebCam 0x1008ff8f
#define XK_XF86MailForward 0x1008ff90
#define XK_XF86Pictures 0x1008ff91
#define XK_XF86Music 0x1008ff92
#define XK_XF86Battery 0x1008ff93
#define XK_XF86Bluetooth 0x1008ff94
#define XK_XF86WLAN 0x1008ff95
#define XK_XF86UWB 0x1008ff96
#define XK_XF86AudioForward 0x1008ff97
#define XK_XF86AudioRepeat 0x1008ff98
#define XK_XF86AudioRandomPlay 0x1008ff99
#define XK_XF86Subtitle 0x1008ff9a
#define XK_XF86AudioCycleTrack 0x1008ff9b
#define XK_XF86CycleAngle 0x1008ff9c
#define XK_XF86FrameBack 0x1008ff9d
#define XK_XF86FrameForward 0x1008ff9e
#define XK_XF86Time 0x1008ff9f
#define XK_XF86Select 0x1008ffa0
#define XK_XF86View 0x1008ffa1
#define XK_XF86TopMenu 0x1008ffa2
#define XK_XF86Red 0x1008ffa3
#define XK_XF86Green 0x1008ffa4
#define XK_XF86Yellow 0x1008ffa5
#define XK_XF86Blue 0x1008ffa6
#define XK_XF86Suspend 0x1008ffa7
#define XK_XF86Hibernate 0x1008ffa8
#define XK_XF86TouchpadToggle 0x1008ffa9
#define XK_XF86TouchpadOn 0x1008ffb0
#define XK_XF86TouchpadOff 0x1008ffb1
#define XK_XF86AudioMicMute 0x1008ffb2
#define XK_XF86Keyboard 0x1008ffb3
#define XK_XF86WWAN 0x1008ffb4
#define XK_XF86RFKill 0x1008ffb5
#define XK_XF86AudioPreset 0x1008ffb6
#define XK_XF86RotationLockToggle 0x1008ffb7
#define XK_XF86FullScreen 0x1008ffb8
#define XK_XF86Switch_VT_1 0x1008fe01
#define XK_XF86Switch_VT_2 0x1008fe02
#define XK_XF86Switch_VT_3 0x1008fe03
#define XK_XF86Switch_VT_4 0x1008fe04
#define XK_XF86Switch_VT_5 0x1008fe05
#define XK_XF86Switch_VT_6 0x1008fe06
#define XK_XF86Switch_VT_7 0x1008fe07
#define XK_XF86Switch_VT_8 0x1008fe08
#define XK_XF86Switch_VT_9 0x1008fe09
#define XK_XF86Switch_VT_10 0x1008fe0a
#define XK_XF86Switch_VT_11 0x1008fe0b
#define XK_XF86Switch_VT_12 0x1008fe0c
#define XK_XF86Ungrab 0x1008fe20
#define XK_XF86ClearGrab 0x1008fe21
#define XK_XF86Next_VMode 0x1008fe22
#define XK_XF86Prev_VMode 0x1008fe23
#define XK_XF86LogWindowTree 0x1008fe24
#define XK_XF86LogGrabInfo 0x1008fe25
#define XK_XF86BrightnessAuto 0x100810f4
#define XK_XF86DisplayOff 0x100810f5
#define XK_XF86Info 0x10081166
#define XK_XF86AspectRatio 0x10081177
#define XK_XF86DVD 0x10081185
#define XK_XF86Audio 0x10081188
#define XK_XF86ChannelUp 0x10081192
#define XK_XF86ChannelDown 0x10081193
#define XK_XF86Break 0x1008119b
#define XK_XF86VideoPhone 0x100811a0
#define XK_XF86ZoomReset 0x100811a4
#define XK_XF86Editor 0x100811a6
#define XK_XF86GraphicsEditor 0x100811a8
#define XK_XF86Presentation 0x100811a9
#define XK_XF86Database 0x100811aa
#define XK_XF86Voicemail 0x100811ac
#define XK_XF86Addressbook 0x100811ad
#define XK_XF86DisplayToggle 0x100811af
#define XK_XF86SpellCheck 0x100811b0
#define XK_XF86ContextMenu 0x100811b6
#define XK_XF86MediaRepeat 0x100811b7
#define XK_XF8610ChannelsUp 0x100811b8
#define XK_XF8610ChannelsDown 0x100811b9
#define XK_XF86Images 0x100811ba
#define XK_XF86NotificationCenter 0x100811bc
#define XK_XF86PickupPhone 0x100811bd
#define XK_XF86HangupPhone 0x100811be
#define XK_XF86Fn 0x100811d0
#define XK_XF86Fn_Esc 0x100811d1
#define XK_XF86FnRightShift 0x100811e5
#define XK_XF86Numeric0 0x10081200
#define XK_XF86Numeric1 0x10081201
#define XK_XF86Numeric2 0x10081202
#define XK_XF86Numeric3 0x10081203
#define XK_XF86Numeric4 0x10081204
#define XK_XF86Numeric5 0x10081205
#define XK_XF86Numeric6 0x10081206
#define XK_XF86Numeric7 0x10081207
#define XK_XF86Numeric8 0x10081208
#define XK_XF86Numeric9 0x10081209
#define XK_XF86NumericStar 0x1008120a
#define XK_XF86NumericPound 0x1008120b
#define XK_XF86NumericA 0x1008120c
#define XK_XF86NumericB 0x1008120d
#define XK_XF86NumericC 0x1008120e
#define XK_XF86NumericD 0x1008120f
#define XK_XF86CameraFocus 0x10081210
#define XK_XF86WPSButton 0x10081211
#define XK_XF86CameraZoomIn 0x10081215
#define XK_XF86CameraZoomOut 0x10081216
#define XK_XF86CameraUp 0x10081217
#define XK_XF86CameraDown 0x10081218
#define XK_XF86CameraLeft 0x10081219
#define XK_XF86CameraRight 0x1008121a
#define XK_XF86AttendantOn 0x1008121b
#define XK_XF86AttendantOff 0x1008121c
#define XK_XF86AttendantToggle 0x1008121d
#define XK_XF86LightsToggle 0x1008121e
#define XK_XF86ALSToggle 0x10081230
#define XK_XF86Buttonconfig 0x10081240
#define XK_XF86Taskmanager 0x10081241
#define XK_XF86Journal 0x10081242
#define XK_XF86ControlPanel 0x10081243
#define XK_XF86AppSelect 0x10081244
#define XK_XF86Screensaver 0x10081245
#define XK_XF86VoiceCommand 0x10081246
#define XK_XF86Assistant 0x10081247
#define XK_XF86EmojiPicker 0x10081249
#define XK_XF86Dictate 0x1008124a
#define XK_XF86CameraAccessEnable 0x1008124b
#define XK_XF86CameraAccessDisable 0x1008124c
#define XK_XF86CameraAccessToggle 0x1008124d
#define XK_XF86BrightnessMin 0x10081250
#define XK_XF86BrightnessMax 0x10081251
#define XK_XF86KbdInputAssistPrev 0x10081260
#define XK_XF86KbdInputAssistNext 0x10081261
#define XK_XF86KbdInputAssistPrevgroup 0x10081262
#define XK_XF86KbdInputAssistNextgroup 0x10081263
#define XK_XF86KbdInputAssistAccept 0x10081264
#define XK_XF86KbdInputAssistCancel 0x10081265
#define XK_XF86RightUp 0x10081266
#define XK_XF86RightDown 0x10081267
#define XK_XF86LeftUp 0x10081268
#define XK_XF86LeftDown 0x10081269
#define XK_XF86RootMenu 0x1008126a
#define XK_XF86MediaTopMenu 0x1008126b
#define XK_XF86Numeric11 0x1008126c
#define XK_XF86Numeric12 0x1008126d
#define XK_XF86AudioDesc 0x1008126e
#define XK_XF863DMode 0x1008126f
#define XK_XF86NextFavorite 0x10081270
#define XK_XF86StopRecord 0x10081271
#define XK_XF86PauseRecord 0x10081272
#define XK_XF86VOD 0x10081273
#define XK_XF86Unmute 0x10081274
#define XK_XF86FastReverse 0x10081275
#define XK_XF86SlowReverse 0x10081276
#define XK_XF86Data 0x10081277
#define XK_XF86OnScreenKeyboard 0x10081278
#define XK_XF86PrivacyScreenToggle 0x10081279
#define XK_XF86SelectiveScreenshot 0x1008127a
#define XK_XF86NextElement 0x1008127b
#define XK_XF86PreviousElement 0x1008127c
#define XK_XF86AutopilotEngageToggle 0x1008127d
#define XK_XF86MarkWaypoint 0x1008127e
#define XK_XF86Sos 0x1008127f
#define XK_XF86NavChart 0x10081280
#define XK_XF86FishingChart 0x10081281
#define XK_XF86SingleRangeRadar 0x10081282
#define XK_XF86DualRangeRadar 0x10081283
#define XK_XF86RadarOverlay 0x10081284
#define XK_XF86TraditionalSonar 0x10081285
#define XK_XF86ClearvuSonar 0x10081286
#define XK_XF86SidevuSonar 0x10081287
#define XK_XF86NavInfo 0x10081288
#define XK_XF86Macro1 0x10081290
#define XK_XF86Macro2 0x10081291
#define XK_XF86Macro3 0x10081292
#define XK_XF86Macro4 0x10081293
#define XK_XF86Macro5 0x10081294
#define XK_XF86Macro6 0x10081295
#define XK_XF86Macro7 0x10081296
#define XK_XF86Macro8 0x10081297
#define XK_XF86Macro9 0x10081298
#define XK_XF86Macro10 0x10081299
#define XK_XF86Macro11 0x1008129a
#define XK_XF86Macro12 0x1008129b
#define XK_XF86Macro13 0x1008129c
#define XK_XF86Macro14 0x1008129d
#define XK_XF86Macro15 0x1008129e
#define XK_XF86Macro16 0x1008129f
#define XK_XF86Macro17 0x100812a0
#define XK_XF86Macro18 0x100812a1
#define XK_XF86Macro19 0x100812a2
#define XK_XF86Macro20 0x100812a3
#define XK_XF86Macro21 0x100812a4
#define XK_XF86Macro22 0x100812a5
#define XK_XF86Macro23 0x100812a6
#define XK_XF86Macro24 0x100812a7
#define XK_XF86Macro25 0x100812a8
#define XK_XF86Macro26 0x100812a9
#define XK_XF86Macro27 0x100812aa
#define XK_XF86Macro28 0x100812ab
#define XK_XF86Macro29 0x100812ac
#define XK_XF86Macro30 0x100812ad
#define XK_XF86MacroRecordStart 0x100812b0
#define XK_XF86MacroRecordStop 0x100812b1
#define XK_XF86MacroPresetCycle 0x100812b2
#define XK_XF86MacroPreset1 0x100812b3
#define XK_XF86MacroPreset2 0x100812b4
#define XK_XF86MacroPreset3 0x100812b5
#define XK_XF86KbdLcdMenu1 0x100812b8
#define XK_XF86KbdLcdMenu2 0x100812b9
#define XK_XF86KbdLcdMenu3 0x100812ba
#define XK_XF86KbdLcdMenu4 0x100812bb
#define XK_XF86KbdLcdMenu5 0x100812bc
#define XK_U2dd 0x10002dd /*U+02DD*/
#define XK_U37a 0x100037a /*U+037A*/
";
