//! Worked examples of lines, as contracts that compute.
ghost use Rattle.std.specs.Prelude.{◌≡◌, ◌++◌, codes};
ghost use Rattle.sip_policy.specs.declared.operation.Operation.{Operation};
ghost use Rattle.sip_matrix.specs.declared.column.Column.TheVariants.{Elsewhere};
ghost use Rattle.sip_matrix.specs.Table.{named, begins};
ghost use Rattle.sipd_matrix_forms.specs.Examples.{sample_lines};

/// Lines of the sample's table for INVITE: of nobody, Mufasa, and alice and help.
pub fn invite_lines()
    ensures outside { sample_lines (Operation.Send (codes "INVITE")) (begins (codes "9") (codes "host.com"))
        ≡ codes "0,1440,nobody,INVITE,any,9*@host.com,5,challenge,\r\n"
        ++ codes "0,1440,Mufasa,INVITE,any,9*@host.com,5,via,gw\r\n"
        ++ codes "0,1440,alice help,INVITE,any,9*@host.com,6,allow,nobody\r\n" }
    ensures elsewhere { sample_lines (Operation.Send (codes "INVITE")) Elsewhere
        ≡ codes "0,1440,nobody,INVITE,any,any other host,0,deny,\r\n"
        ++ codes "0,1440,Mufasa,INVITE,any,any other host,0,deny,\r\n"
        ++ codes "0,1440,alice help,INVITE,any,any other host,0,deny,\r\n" }
{}

/// Each user registers his own address, and no other.
pub fn register_lines()
    ensures { sample_lines Operation.Register (named (codes "help") (codes "host.com"))
        ≡ codes "0,1440,nobody,register,any,help@host.com,1,challenge,\r\n"
        ++ codes "0,1440,Mufasa,register,any,help@host.com,0,deny,\r\n"
        ++ codes "0,1440,alice help,register,others,help@host.com,0,deny,\r\n"
        ++ codes "0,1440,alice help,register,own,help@host.com,1,allow,registrar\r\n" }
{}
