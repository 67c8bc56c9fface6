//! The codes that services of a slave are refused with: a line each, with the code, a blank and what it says.

/// SDO abort codes (ETG.1000.6, 5.6.2; CiA 301, 7.2.4.3.17).
pub const ABORTS: &str = "\
05030000 the toggle bit of a segment didn't alternate
05040000 the transfer timed out
05040001 the command is not known or doesn't fit here
05040002 the block size is not valid
05040003 the sequence number is not valid
05040004 the checksum is wrong
05040005 the slave is out of memory
06010000 the object can't be accessed in this way
06010001 the entry can't be read
06010002 the entry can't be written
06010003 subindex 0 must be written as 0 first
06010004 complete access isn't supported for this object
06010005 the object is longer than the mailbox allows
06010006 the object is mapped to process data and can't be written
06020000 there is no such object
06040041 the object can't be mapped to process data
06040042 the mapping is longer than the process data allow
06040043 the parameters don't fit together
06040047 the device isn't compatible inside
06060000 the access failed by a hardware error
06070010 the value has another length than the entry
06070012 the value is too long for the entry
06070013 the value is too short for the entry
06090011 there is no such subindex
06090030 the value is out of range
06090031 the value is above the maximum
06090032 the value is below the minimum
06090036 the maximum is below the minimum
08000000 a general error
08000020 the value can't be stored
08000021 the value can't be stored because of local control
08000022 the entry can't be accessed in this AL state
08000023 the object dictionary can't be made or isn't there
";

/// FoE error codes (ETG.1000.6, 5.8; ETG.1020).
pub const FOE_ERRORS: &str = "\
8000 an error without a code of its own
8001 there is no such file
8002 wrong password, or no right to this access
8003 the new file doesn't fit the slave's free blocks
8004 the request doesn't fit the transfer
8005 the packet number is wrong
8006 the file exists already
8007 no such user
8008 the file can be reached in Bootstrap only
8009 the file can't be reached in Bootstrap
800a no rights
800b an error of the slave's program
";

/// SoE error codes (ETG.1000.6, 5.10).
pub const SOE_ERRORS: &str = "\
1001 the drive has no such IDN
1009 the element can't be accessed in this way: ask for one element at a time
2001 the IDN has no name
2002 the name is too short
2003 the name is too long
2004 the name can't be changed
2005 the name is write-protected now
3002 the attribute is too short
3003 the attribute is too long
3004 the attribute can't be changed
3005 the attribute is write-protected now
4001 the IDN has no unit
4002 the unit is too short
4003 the unit is too long
4004 the unit can't be changed
4005 the unit is write-protected now
5001 the IDN has no minimum
5002 the minimum is too short
5003 the minimum is too long
5004 the minimum can't be changed
5005 the minimum is write-protected now
6001 the IDN has no maximum
6002 the maximum is too short
6003 the maximum is too long
6004 the maximum can't be changed
6005 the maximum is write-protected now
7002 the value is too short for the IDN
7003 the value is too long for the IDN
7004 the value can't be changed
7005 the value is write-protected now
7006 the value is below the minimum
7007 the value is above the maximum
7008 the value is not valid
7009 the value is protected by a password
700a the value is configured as cyclic data and can't be written
7010 the procedure is active already
7011 the procedure can't be interrupted
7012 the procedure can't be executed now
7013 the procedure's parameters are wrong
";

/// Results of an EoE request (ETG.1000.6, 5.7).
pub const EOE_RESULTS: &str = "\
0000 success
0001 the address can't be set: it is fixed, or isn't an address block that fits
0002 the request is of a type that isn't supported
";

/// Mailbox error codes (ETG.1000.4, 5.6; ETG.1000.6, 5.5).
pub const MAILBOX_ERRORS: &str = "\
0001 the mail's header isn't valid
0002 the slave doesn't serve this protocol (in Bootstrap it serves FoE alone)
0003 the mail's channel isn't valid
0004 the protocol has no such service
0005 the protocol's header isn't valid; of the gateway: no live slave has the station
0006 the mail is too short
0007 no memory; of the gateway: too many requests wait for the slave
0008 the mail's length doesn't fit; of the gateway: it is longer than the slave's mailbox
";

/// AL status codes (ETG.1000.6, 5.3.2; ETG.1020).
pub const AL_STATUS_CODES: &str = "\
0000 no error
0001 an error without a code of its own
0002 the slave is out of memory
0011 the change isn't possible from this state: Init to PreOp, SafeOp and Op, one step at a time; Bootstrap from Init alone
0012 there is no such state
0013 the slave has no Bootstrap
0014 the slave's firmware isn't valid
0015 the mailboxes aren't set up as Bootstrap needs them
0016 the mailboxes aren't set up as PreOp needs them
0017 a sync manager isn't set up right
0018 there are no valid inputs
0019 there are no valid outputs
001a the synchronization is lost
001b no process data came for too long (watchdog)
001c a sync manager has the wrong type
001d the outputs aren't set up right
001e the inputs aren't set up right
001f the watchdog isn't set up right
0020 the slave must be switched off and on
0021 the slave must go to Init first
0022 the slave must go to PreOp first
0023 the slave must go to SafeOp first
0024 the input mapping isn't valid
0025 the output mapping isn't valid
0026 the settings don't fit together
0030 the distributed clocks aren't set up right
0035 the cycle time of the distributed clocks isn't valid
0042 an error of EoE
0043 an error of CoE
0044 an error of FoE
0045 an error of SoE
0050 the EEPROM can't be accessed
0051 an error of the EEPROM
0060 the slave started again by itself
";

/// Classes of emergencies by the high octet of their codes (CiA 301, "Emergency error codes"; ETG.1000.6, section 5.6.4).
pub const CLASSES: &str = "\
00 no error, or an error that is gone
10 generic error
20 current
21 current on the input side
22 current inside the device
23 current on the output side
30 voltage
31 mains voltage
32 voltage inside the device
33 output voltage
40 temperature
41 ambient temperature
42 device temperature
50 device hardware
60 device software
61 internal software
62 user software
63 data set
70 additional modules
80 monitoring
81 communication
82 protocol
90 external error
a0 EtherCAT state change
f0 additional functions
ff specific to the device
";
